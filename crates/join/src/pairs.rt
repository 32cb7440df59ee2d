// The pairs of the joined table: for each rule of the house its own pairs, then the added ones; then the tour's.
ghost use Rattle.std.specs.Prelude.{◌+◌, ◌*◌, ◌≤◌, ◌≡◌};
ghost use Rattle.table.specs.Tables.{theory_said};
ghost use Rattle.joining.specs.Joining.{pairs_under};
ghost use Rattle.join.specs.Written.{AddedPairs, HousePairs};

use crate::heads::{ByHead, against};
use table::accepted::Table;
use writing::columns::{Side, put_word, word_in, write_pairs};

// Where the pairs of a rule end that begin at `from`.
fn own_end(table: Table, rule: usize, from: usize) -> usize
    requires { from ≡ pairs_under (theory_said table) rule }
    ensures { result ≡ pairs_under (theory_said table.entry) (rule + 1) }
{
    let end = usize::from(table.sizes.pairs);
    for i in from..end {
        if usize::from(table.pair(i).stronger) != rule {
            return i;
        }
    }
    end
}

// Pairs of one rule over those of a chain, which are numbered from `later` on; and the place after them.
fn write_added(
    out: &mut [u8],
    at: usize,
    side: Side,
    rule: u16,
    later: u16,
    start: u16,
    rules: &ByHead,
) -> usize
    requires { (at ≤ 3000000) × (later ≤ 1024) }
    ensures { (result ≤ at + 2 * rules.now.n) × AddedPairs side rule later rules.now.n start rules.now.next out.old at out.new result }
{
    let mut place = at;
    let mut j = start;
    // No range has these rules: each is read from the chain.
    while j < rules.n {
        put_word(out, place, word_in(side, rule, later + j));
        place += 2;
        j = rules.next[usize::from(j)];
    }
    place
}

// The pairs whose stronger rule is the house's; and the place after them. `rules` has the tour's rules. It is taken into its caller, as
// `write_side` is: apart, a join at the limits takes a tenth more instructions.
#[inline(always)]
pub fn write_house_pairs(
    out: &mut [u8],
    at: usize,
    side: Side,
    house: Table,
    rules: &ByHead,
) -> usize
    requires { at ≤ 65536 }
    ensures { (result ≤ at + 2101248) × HousePairs side house.entry.sizes.rules house.entry.layout.now house.entry.sizes rules.now.n rules.now.first rules.now.next out.old at out.new result }
{
    let later = house.sizes.rules;
    let mut place = at;
    let mut from: usize = 0;
    for x in 0..later {
        let rule = usize::from(x);
        let to = own_end(house, rule, from);
        write_pairs(out, place, side, house, from, to, 0);
        let start = rules.first[against(house, rule)];
        let after = place + 2 * (to - from);
        place = write_added(out, after, side, x, later, start, rules);
        from = to;
    }
    place
}
