// The facts of both tables, as marks.
ghost use Rattle.std.specs.Prelude.{◌*◌, ◌≤◌, ◌≡◌, map};
ghost use Rattle.logic.specs.Tests.{◌or◌, count_below, upto, pick};
ghost use Rattle.logic.specs.Theory.{is_fact};
ghost use Rattle.table.specs.Tables.{theory_said};
ghost use Rattle.standing.specs.Marks.{marked, MarkedBy};
ghost use Rattle.files.specs.Contents.{fact_row};
ghost use Rattle.writing.specs.Columns.{word_in, with_words};

use standing::marks::{is_marked, mark};
use table::accepted::Table;
use values::{add_if, either};
use writing::columns::{Side, put_if, word_in};

// The facts of a table.
pub fn facts_of(table: Table) -> [u8; 1024]
    ensures { MarkedBy (is_fact (theory_said table.entry)) 1024 result }
{
    let mut marks = [0u8; 1024];
    for i in 0..usize::from(table.sizes.facts) {
        mark(&mut marks, table.fact(i).0, true);
    }
    marks
}

// Both tables, with the facts of each as marks.
#[derive(Clone, Copy)]
pub struct Both<'a> {
    pub house: Table<'a>,
    pub tour: Table<'a>,
    pub house_facts: &'a [u8],
    pub tour_facts: &'a [u8],
    pub ghost house_marked: { MarkedBy (is_fact (theory_said house)) 1024 house_facts.now },
    pub ghost tour_marked: { MarkedBy (is_fact (theory_said tour)) 1024 tour_facts.now },
}

// Whether a literal is a fact of either.
fn in_either(both: Both, q: u16) -> bool
    ensures { result ≡ (marked both.entry.house_facts.now q or marked both.entry.tour_facts.now q) }
{
    let place = usize::from(q);
    either(
        is_marked(both.house_facts, place),
        is_marked(both.tour_facts, place),
    )
}

// How many literals are facts of either.
pub fn count_facts(both: Both) -> usize
    ensures { result ≡ count_below (2 * both.entry.house.sizes.atoms) (λ q. marked both.entry.house_facts.now q or marked both.entry.tour_facts.now q) }
{
    let mut count: usize = 0;
    for q in 0..2 * both.house.sizes.atoms {
        count = add_if(count, in_either(both, q));
    }
    count
}

// The literals that are facts of either.
pub fn write_facts(out: &mut [u8], at: usize, side: Side, both: Both)
    requires { at ≤ 65536 }
    ensures { out.new ≡ with_words out.old at (map (λ z. word_in side (fact_row z)) (pick (upto (2 * both.entry.house.sizes.atoms)) (λ q. marked both.entry.house_facts.now q or marked both.entry.tour_facts.now q))) }
{
    let mut place = at;
    for q in 0..2 * both.house.sizes.atoms {
        let word = word_in(side, 0, q);
        place = put_if(out, place, word, in_either(both, q));
    }
}
