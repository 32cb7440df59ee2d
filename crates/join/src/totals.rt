// The sizes of the joined table, counted so that none wraps: 512 rules against 512 others add 262,144 pairs.
ghost use Rattle.std.specs.Prelude.{◌≤◌, ◌≡◌, ltb};
ghost use Rattle.logic.specs.Tests.{◌or◌};
ghost use Rattle.join.specs.Written.{joined_said, Counts, JoinedSizes};

use crate::facts::{Both, count_facts};
use crate::heads::{added_pairs, head_counts};
use table::format::Sizes;
use table::judge::Refusal;
use values::either;

#[derive(Clone, Copy)]
pub struct Totals {
    pub facts: usize,
    pub rules: usize,
    pub entries: usize,
    pub pairs: usize,
}

// By both tables.
fn totals_of(both: Both) -> Totals
    ensures { Counts (joined_said both.entry) result }
{
    let counts = head_counts(both.tour);
    let added = added_pairs(both.house, &counts);
    let s = both.house.sizes;
    let t = both.tour.sizes;
    Totals {
        facts: count_facts(both),
        rules: usize::from(s.rules) + usize::from(t.rules),
        entries: usize::from(s.entries) + usize::from(t.entries),
        pairs: usize::from(s.pairs) + usize::from(t.pairs) + added,
    }
}

// Whether one is above its limit. There are at most as many facts as literals.
fn too_large(n: Totals) -> bool
    ensures { result ≡ (ltb 1024 n.rules or (ltb 4096 n.entries or ltb 2048 n.pairs)) }
{
    let rules = usize::from(Sizes::MAX_RULES) < n.rules;
    let entries = usize::from(Sizes::MAX_ENTRIES) < n.entries;
    let pairs = usize::from(Sizes::MAX_PAIRS) < n.pairs;
    either(rules, either(entries, pairs))
}

// The five sizes, where none is above its limit.
fn sizes_of(atoms: u16, n: Totals) -> Sizes
    requires { (n.facts ≤ 1024) × (n.rules ≤ 1024) × (n.entries ≤ 4096) × (n.pairs ≤ 2048) }
    ensures { (result.atoms ≡ atoms) × (result.facts ≡ n.facts) × (result.rules ≡ n.rules) × (result.entries ≡ n.entries) × (result.pairs ≡ n.pairs) }
{
    Sizes {
        atoms,
        facts: n.facts as u16,
        rules: n.rules as u16,
        entries: n.entries as u16,
        pairs: n.pairs as u16,
    }
}

// The sizes of the joined table; or that one is above its limit.
pub fn joined_sizes(both: Both) -> Result<Sizes, Refusal>
    ensures { JoinedSizes (joined_said both.entry) result }
{
    let n = totals_of(both);
    if too_large(n) {
        return Err(Refusal::TooLarge);
    }
    Ok(sizes_of(both.house.sizes.atoms, n))
}
