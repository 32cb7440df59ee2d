// What the readers of a table give at an index, of every section.
use crate::difference::{Difference, What, differs};
use crate::stream::Stream;
use content::readers::{entry_of, fact_of, pair_of, rule_of, sizes_of};
use table::format::{Entry, Literal, Pair, Rule};

fn literal_differs(what: What, rest: &mut Stream, came: Literal) -> Option<Difference> {
    differs(what, u32::from(came.0), rest.number())
}

fn rule_differs(rest: &mut Stream, rule: Rule) -> Option<Difference> {
    differs(What::Kind, u32::from(u16::from(rule.kind)), rest.number())
        .or(differs(
            What::Origin,
            u32::from(u16::from(rule.origin)),
            rest.number(),
        ))
        .or(literal_differs(What::Head, rest, rule.head))
}

fn entry_differs(rest: &mut Stream, entry: Entry) -> Option<Difference> {
    differs(What::Rule, u32::from(entry.rule), rest.number()).or(literal_differs(
        What::Literal,
        rest,
        entry.literal,
    ))
}

fn pair_differs(rest: &mut Stream, pair: Pair) -> Option<Difference> {
    differs(What::Stronger, u32::from(pair.stronger), rest.number()).or(differs(
        What::Weaker,
        u32::from(pair.weaker),
        rest.number(),
    ))
}

// readers.bin: the edition, the index, the fact, the rule's kind, origin and head, the entry, and the pair.
pub fn readers_differ(rest: &mut Stream, table: &[u8]) -> Option<Difference> {
    let edition = rest.edition();
    let i = rest.number() as usize;
    let s = sizes_of(table, edition);
    literal_differs(What::Fact, rest, fact_of(table, edition, s, i))
        .or(rule_differs(rest, rule_of(table, edition, s, i)))
        .or(entry_differs(rest, entry_of(table, edition, s, i)))
        .or(pair_differs(rest, pair_of(table, edition, s, i)))
}
