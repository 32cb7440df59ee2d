// The readers of a table, each told its edition: what stands in its layout. Any sizes serve, so that
// table, edition and sizes stay apart. A loop takes the layout once, and reads that (table::format).
ghost use Rattle.std.specs.Prelude.{◌≡◌};
ghost use Rattle.table.specs.Editions.{layout_of};
ghost use Rattle.table.specs.Format.{sizes_of, fact_at, rule_at, entry_at, pair_at};

use table::edition::{Edition, layout};
use table::format::{
    Entry, Literal, Pair, Rule, Sizes, read_entry, read_fact, read_pair, read_rule, read_sizes,
};

// The five sizes.
pub fn sizes_of(table: &[u8], edition: Edition) -> Sizes
    ensures { result ≡ sizes_of (layout_of edition table.now) }
{
    read_sizes(layout(table, edition))
}

// The i-th fact.
pub fn fact_of(table: &[u8], edition: Edition, s: Sizes, i: usize) -> Literal
    ensures { result ≡ fact_at (layout_of edition table.now) s i }
{
    read_fact(layout(table, edition), s, i)
}

// Rule r, without its body.
pub fn rule_of(table: &[u8], edition: Edition, s: Sizes, r: usize) -> Rule
    ensures { result ≡ rule_at (layout_of edition table.now) s r }
{
    read_rule(layout(table, edition), s, r)
}

// The i-th entry.
pub fn entry_of(table: &[u8], edition: Edition, s: Sizes, i: usize) -> Entry
    ensures { result ≡ entry_at (layout_of edition table.now) s i }
{
    read_entry(layout(table, edition), s, i)
}

// The i-th pair.
pub fn pair_of(table: &[u8], edition: Edition, s: Sizes, i: usize) -> Pair
    ensures { result ≡ pair_at (layout_of edition table.now) s i }
{
    read_pair(layout(table, edition), s, i)
}
