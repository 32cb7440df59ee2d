// How one rule of a table stands by +∂ and −∂ over the lines of a log.
ghost use Rattle.std.specs.Prelude.{◌≡◌, Ok};
ghost use Rattle.table.specs.Tables.{theory_said};
ghost use Rattle.standing.specs.Answers.{meant, numbers_of, answer_with, standing_of, standing_by};

use crate::answer::{Standing, first_fit};
use crate::marks::{has_line, marks_of};
use table::accepted::Table;
use table::edition::Edition;
use table::judge::Refusal;
use values::{both, either};

// By the marks of the lines: one pass over the entries, with two tests and no array. `standings_of`, of all rules, puts 2,048 bytes of arrays
// on the stack beside the 4,096 of the marks; the header promises a limit of what the call takes.
fn standing_by(table: Table, rule: u32, marks: &[u8]) -> Standing
    ensures { meant result ≡ standing_by table.entry.layout.now table.entry.sizes rule marks.now }
{
    let mut lacking = false;
    let mut refuted = false;
    for i in 0..usize::from(table.sizes.entries) {
        let e = table.entry(i);
        let own = u32::from(e.rule) == rule;
        let q = e.literal;
        let proved = has_line(marks, q, 2);
        lacking = either(lacking, both(own, !proved));
        refuted = either(refuted, both(own, has_line(marks, q, 3)));
    }
    first_fit(!lacking, refuted)
}

// Of a table that is accepted.
#[tactic(auto, using(crate::proofs::Answering::standing_marked), unfolding(crate::specs::Answers::numbers_of, crate::specs::Answers::answer_with))]
fn stands_in(table: Table, rule: u32, log: &[u16]) -> Result<Standing, Refusal>
    ensures { numbers_of result ≡ answer_with (Ok table.entry.sizes) (theory_said table.entry) rule log.now }
{
    if rule < u32::from(table.sizes.rules) {
        let marks = marks_of(log);
        Ok(standing_by(table, rule, &marks))
    } else {
        Err(Refusal::OutOfRange)
    }
}

// A refusal 1 to 7 of the table, 5 for a rule number not below N, or how the rule stands. Any words serve as a log.
#[tactic(auto, unfolding(crate::specs::Answers::numbers_of, crate::specs::Answers::answer_with))]
pub fn stands(table: &[u8], edition: Edition, rule: u32, log: &[u16]) -> Result<Standing, Refusal>
    ensures { numbers_of result ≡ standing_of edition table.now rule log.now }
{
    let accepted = Table::read(table, edition)?;
    stands_in(accepted, rule, log)
}
