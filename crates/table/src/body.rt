// Document 01, The table: "The antecedents of one rule are handed back as the part of the table's own right array".
ghost use Rattle.std.specs.Prelude.{◌≡◌};
ghost use Rattle.table.specs.Bodies.{entries_below, body_part, Body};

use crate::accepted::Table;
use crate::edition::Edition;
use values::add_if;

// How many entries are of rules below r.
fn entries_below(table: Table, r: usize) -> usize
    ensures { result ≡ entries_below table.entry.layout.now table.entry.sizes r }
{
    let mut n: usize = 0;
    for i in 0..table.sizes.entries as usize {
        let e = table.entry(i);
        n = add_if(n, (e.rule as usize) < r);
    }
    n
}

// The part of the right array that holds the entries of rule r.
fn part_of(table: Table, r: usize) -> &[u8]
    ensures { result.now ≡ body_part table.entry.layout.now table.entry.sizes r }
{
    let s = table.sizes;
    let n = s.rules as usize;
    if r < n {
        let from = 10 + 2 * (s.span() + (s.facts as usize + n));
        let start = from + 2 * entries_below(table, r);
        let end = from + 2 * entries_below(table, r + 1);
        &table.layout[start..end]
    } else {
        &table.layout[0..0]
    }
}

// The antecedents of rule r as bytes of the table: no bytes for a rule without entries, a rule number not below N, or a table that
// is refused.
pub fn body(table: &[u8], edition: Edition, r: usize) -> &[u8]
    ensures { Body edition table.now r result.now }
{
    match Table::read(table, edition) {
        Ok(accepted) => part_of(accepted, r),
        Err(_) => &table[0..0],
    }
}
