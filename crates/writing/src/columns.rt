// The words of a table into an output: first all of the left array, then all of the right one, section after section. What does not fit
// into the output is not written, so no function asks for room; that a place is below some millions keeps each sum from wrapping.
// `out` and `at` stay two parameters: each clause on a struct of both would have to say that it still lends the same output.
ghost use Rattle.std.specs.Prelude.{◌+◌, ◌-◌, ◌*◌, ◌≤◌, ◌≡◌, cond, [], ◌∷◌, length, set};
ghost use Rattle.std.proofs.lemmas.List.Edits.{sets};
ghost use Rattle.logic.specs.Tests.{weigh};
ghost use Rattle.table.specs.Format.{rule_at, entry_at, pair_at};
ghost use Rattle.files.specs.Contents.{Row, later_entry, later_pair, rule_row, entry_row, pair_row, marked};
ghost use Rattle.writing.specs.Columns.{word_in, with_words, column};

use table::accepted::Table;
use table::edition::Edition;
use table::format::{Rule, Sizes, read_rule};

// The two arrays of a table. An enum and no closure: of a closure from a row to its word each function would have to require what it gives,
// and a side has one law, `word_in`.
#[derive(Clone, Copy)]
pub enum Side {
    Left,
    Right,
}

// The word of a row on one side.
#[tactic(auto, unfolding(crate::specs::Columns::word_in))]
pub fn word_in(side: Side, left: u16, right: u16) -> u16
    ensures { result ≡ word_in side (record { left = left; right = right }) }
{
    match side {
        Side::Left => left,
        Side::Right => right,
    }
}

fn put_byte(out: &mut [u8], at: usize, byte: u8)
    ensures { out.new ≡ set out.old at byte }
{
    if at < out.len() {
        out[at] = byte;
    }
}

// A word at a place of the output.
#[tactic(auto, unfolding(files::specs::Contents::bytes_of))]
pub fn put_word(out: &mut [u8], at: usize, word: u16)
    requires { at ≤ 8000000 }
    ensures { out.new ≡ with_words out.old at (word ∷ []) }
{
    let [low, high] = word.to_le_bytes();
    put_byte(out, at, low);
    put_byte(out, at + 1, high);
}

// A word at a place of the output, if the test says so; and the place after it.
#[tactic(auto, unfolding(files::specs::Contents::bytes_of, logic::specs::Tests::weigh))]
pub fn put_if(out: &mut [u8], at: usize, word: u16, test: bool) -> usize
    requires { at ≤ 8000000 }
    ensures { (out.new ≡ with_words out.old at (cond test (word ∷ []) [])) × (result ≡ at + 2 * weigh test 1) }
{
    if test {
        put_word(out, at, word);
        at + 2
    } else {
        at
    }
}

// How many bytes stand before the layout.
#[tactic(auto, unfolding(files::specs::Contents::marked))]
pub fn mark_bytes(edition: Edition) -> usize
    ensures { result ≡ length (marked edition []) }
{
    match edition {
        Edition::Old => 0,
        Edition::Two => 1,
    }
}

fn put_two(out: &mut [u8]) -> usize
    ensures { (result ≡ 1) × (out.new ≡ set out.old 0 2) }
{
    put_byte(out, 0, 2);
    1
}

// What stands before the layout, and the layout's place.
#[tactic(auto, unfolding(files::specs::Contents::marked))]
pub fn begin(out: &mut [u8], edition: Edition) -> usize
    ensures { (result ≡ length (marked edition [])) × (out.new ≡ sets out.old 0 (marked edition [])) }
{
    match edition {
        Edition::Old => 0,
        Edition::Two => put_two(out),
    }
}

// The five sizes.
#[tactic(auto, unfolding(files::specs::Contents::bytes_of))]
pub fn write_sizes(out: &mut [u8], at: usize, s: Sizes)
    requires { at ≤ 4000000 }
    ensures { out.new ≡ with_words out.old at (s.atoms ∷ s.facts ∷ s.rules ∷ s.entries ∷ s.pairs ∷ []) }
{
    put_word(out, at, s.atoms);
    put_word(out, at + 2, s.facts);
    put_word(out, at + 4, s.rules);
    put_word(out, at + 6, s.entries);
    put_word(out, at + 8, s.pairs);
}

// A rule's left word: kind + 4 × origin.
pub fn left_of(rule: Rule) -> u16
    ensures { result ≡ (rule_row rule).left }
{
    u16::from(rule.kind) + 4 * u16::from(rule.origin)
}

// The rules of a layout. Any layout and sizes serve, which a `Table` would not say.
pub fn write_rules(out: &mut [u8], at: usize, side: Side, layout: &[u8], s: Sizes)
    requires { at ≤ 4000000 }
    ensures { out.new ≡ with_words out.old at (column side (λ r. rule_row (rule_at layout.now s r)) s.rules) }
{
    for i in 0..usize::from(s.rules) {
        let rule = read_rule(layout, s, i);
        put_word(out, at + 2 * i, word_in(side, left_of(rule), rule.head.0));
    }
}

// The entries of a table whose rules are numbered from `first` on.
pub fn write_entries(out: &mut [u8], at: usize, side: Side, table: Table, first: u16)
    requires { (at ≤ 4000000) × (first ≤ 1024) }
    ensures { out.new ≡ with_words out.old at (column side (λ i. entry_row (later_entry first (entry_at table.entry.layout.now table.entry.sizes i))) table.entry.sizes.entries) }
{
    for i in 0..usize::from(table.sizes.entries) {
        let entry = table.entry(i);
        put_word(
            out,
            at + 2 * i,
            word_in(side, first + entry.rule, entry.literal.0),
        );
    }
}

// The pairs `from` to `to` of a table whose rules are numbered from `first` on.
pub fn write_pairs(
    out: &mut [u8],
    at: usize,
    side: Side,
    table: Table,
    from: usize,
    to: usize,
    first: u16,
)
    requires { (at ≤ 4000000) × (first ≤ 1024) × (from ≤ to) × (to ≤ table.sizes.pairs) }
    ensures { out.new ≡ with_words out.old at (column side (λ i. pair_row (later_pair first (pair_at table.entry.layout.now table.entry.sizes (from + i)))) (to - from)) }
{
    for i in 0..to - from {
        let pair = table.pair(from + i);
        put_word(
            out,
            at + 2 * i,
            word_in(side, first + pair.stronger, first + pair.weaker),
        );
    }
}
