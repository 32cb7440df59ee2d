// How the rules of a table stand by +∂ and −∂ over the lines of a log, all of them by one pass over the entries.
ghost use Rattle.std.specs.Prelude.{◌≡◌};
ghost use Rattle.logic.specs.Tests.{isnt};
ghost use Rattle.logic.specs.Standing.{first_fit};
ghost use Rattle.standing.specs.Marks.{marked};
ghost use Rattle.standing.specs.Answers.{meant, Stood};

use crate::answer::{Standing, first_fit};
use crate::marks::{has_line, is_marked, mark};
use table::format::{Sizes, read_entry};

// Marks of rules: of those with an antecedent that lacks +∂, and of those with one that has −∂. Two arrays, as the contract names them
// (`Stood`): each is a set of rules of its own, that `mark` adds to and `is_marked` asks.
#[derive(Clone, Copy)]
pub struct Standings {
    pub lacking: [u8; 1024],
    pub refuted: [u8; 1024],
}

// By the marks of the lines. An entry of a rule that no table has, at or above 1,024, is passed over. Any layout and sizes serve, which a
// `Table` would not say.
pub fn standings_of(layout: &[u8], s: Sizes, marks: &[u8]) -> Standings
    ensures { Stood layout.now s marks.now result.lacking result.refuted }
{
    let mut lacking = [0u8; Sizes::MAX_RULES as usize];
    let mut refuted = [0u8; Sizes::MAX_RULES as usize];
    for i in 0..usize::from(s.entries) {
        let e = read_entry(layout, s, i);
        let q = e.literal;
        let proved = has_line(marks, q, 2);
        mark(&mut lacking, e.rule, !proved);
        mark(&mut refuted, e.rule, has_line(marks, q, 3));
    }
    Standings { lacking, refuted }
}

// How a rule stands, by the marks of those that lack +∂ of an antecedent, and of those with −∂ of one.
#[tactic(auto, using(logic::proofs::Tests::not_isnt))]
pub fn standing_at(lacking: &[u8], refuted: &[u8], rule: usize) -> Standing
    ensures { meant result ≡ first_fit (isnt (marked lacking.now rule)) (marked refuted.now rule) }
{
    let lacks = is_marked(lacking, rule);
    first_fit(!lacks, is_marked(refuted, rule))
}
