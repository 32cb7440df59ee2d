// The two arrays of the joined table.
ghost use Rattle.std.specs.Prelude.{◌≤◌, ◌≡◌, map, length};
ghost use Rattle.files.specs.Contents.{rows_of};
ghost use Rattle.writing.specs.Columns.{word_in, with_words};
ghost use Rattle.join.specs.Written.{joined_said, RulesOfBoth};

use crate::facts::{Both, write_facts};
use crate::heads::by_head;
use crate::pairs::write_house_pairs;
use table::accepted::Table;
use writing::columns::{Side, write_entries, write_pairs, write_rules};

// The rules and the entries of both tables; and the place after them.
fn write_rules_of_both(out: &mut [u8], at: usize, side: Side, house: Table, tour: Table) -> usize
    requires { at ≤ 50000 }
    ensures { RulesOfBoth side house.entry.layout.now house.entry.sizes tour.entry.layout.now tour.entry.sizes out.old at out.new result }
{
    write_rules(out, at, side, house.layout, house.sizes);
    let rules = at + 2 * usize::from(house.sizes.rules);
    write_rules(out, rules, side, tour.layout, tour.sizes);
    let entries = rules + 2 * usize::from(tour.sizes.rules);
    write_entries(out, entries, side, house, 0);
    let more = entries + 2 * usize::from(house.sizes.entries);
    write_entries(out, more, side, tour, house.sizes.rules);
    more + 2 * usize::from(tour.sizes.entries)
}

// One array, of which the first n rows are the facts. It is taken into its caller, where the marks of facts are arrays: of a slice the length is
// tested for each literal.
#[inline(always)]
pub fn write_side(out: &mut [u8], at: usize, side: Side, both: Both, n: u16)
    requires { (at ≤ 40000) × (n ≡ length (joined_said both).facts) }
    ensures { out.new ≡ with_words out.old at (map (word_in side) (rows_of (joined_said both.entry))) }
{
    let house = both.house;
    let tour = both.tour;
    let rules = by_head(tour);
    write_facts(out, at, side, both);
    let pairs = write_rules_of_both(out, at + 2 * usize::from(n), side, house, tour);
    let last = write_house_pairs(out, pairs, side, house, &rules);
    let end = usize::from(tour.sizes.pairs);
    write_pairs(out, last, side, tour, 0, end, house.sizes.rules);
}
