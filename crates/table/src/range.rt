// Faults 4 and 5 of document 01: words that are too large for their place.
ghost use Rattle.std.specs.Prelude.{◌+◌, ◌*◌, ◌≤◌, ◌≡◌, leb, length};
ghost use Rattle.logic.specs.Tests.{some};
ghost use Rattle.table.specs.Format.{word};
ghost use Rattle.table.specs.Refusals.{bad_left, bad_rule, bad_kind, out_of_range};

use crate::edition::Edition;
use crate::format::word_within;
use crate::whole::Layout;
use values::either;

// Whether one of n words within the layout is at least the limit. All are looked at: the loop has no other way out.
fn any_at_least(layout: Layout, base: usize, from: usize, n: u16, limit: u16) -> bool
    requires { (base ≤ 262145) × (from ≤ 262140) × (2 * (base + (from + n)) ≤ length layout.bytes.now) }
    ensures { result ≡ some n (λ i. leb limit (word layout.entry.bytes.now (base + (from + i)))) }
{
    let mut found = false;
    for i in 0..n as usize {
        let w = word_within(layout.bytes, base + (from + i));
        found = either(found, limit <= w);
    }
    found
}

// Whether a rule's left word has no kind, or no origin, that the edition knows.
#[tactic(auto, unfolding(crate::specs::Refusals::bad_left))]
fn bad_left(edition: Edition, w: u16) -> bool
    ensures { result ≡ bad_left edition w }
{
    match edition {
        Edition::Old => 2 < w,
        Edition::Two => either(2 < w % 4, 3 < w / 4),
    }
}

// Whether one of the rules has such a left word. All are looked at.
fn bad_rule(layout: Layout, edition: Edition) -> bool
    ensures { result ≡ bad_rule edition layout.entry.bytes.now layout.entry.sizes }
{
    let from = layout.sizes.facts as usize;
    let mut found = false;
    for i in 0..layout.sizes.rules as usize {
        let w = word_within(layout.bytes, 5 + (from + i));
        found = either(found, bad_left(edition, w));
    }
    found
}

// 4: a fact's left word that is not 0, or a rule's with no kind or no origin.
pub fn bad_kind(layout: Layout, edition: Edition) -> bool
    ensures { result ≡ bad_kind edition layout.entry.bytes.now layout.entry.sizes }
{
    let facts = any_at_least(layout, 5, 0, layout.sizes.facts, 1);
    either(facts, bad_rule(layout, edition))
}

// 5: a literal not below 2A, or a rule number not below N.
pub fn out_of_range(layout: Layout) -> bool
    ensures { result ≡ out_of_range layout.entry.bytes.now layout.entry.sizes }
{
    let s = layout.sizes;
    let literals = 2 * s.atoms;
    let rules = s.rules;
    let right = 5 + s.span();
    let at_rules = s.facts as usize;
    let at_entries = at_rules + rules as usize;
    let at_pairs = at_entries + s.entries as usize;
    let facts = any_at_least(layout, right, 0, s.facts, literals);
    let heads = any_at_least(layout, right, at_rules, s.rules, literals);
    let users = any_at_least(layout, 5, at_entries, s.entries, rules);
    let bodies = any_at_least(layout, right, at_entries, s.entries, literals);
    let stronger = any_at_least(layout, 5, at_pairs, s.pairs, rules);
    let weaker = any_at_least(layout, right, at_pairs, s.pairs, rules);
    either(
        either(either(facts, heads), either(users, bodies)),
        either(stronger, weaker),
    )
}
