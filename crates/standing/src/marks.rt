// Marks: a set of numbers as an array, 1 at each of them (numbers and not `bool`s, as in the contracts' word `marked`). The marks of a
// log are of its lines. No table has a line at or above 4,096, which is 8 for each of 512 atoms.
ghost use Rattle.std.specs.Prelude.{◌+◌, ◌*◌, ◌≡◌};
ghost use Rattle.standing.specs.Marks.{marked, Marked, MarkedToo};

use table::format::Literal;

// 1 at a number, if the test says so. A number past the array is passed over.
#[tactic(auto, using(crate::proofs::Marking::mark_set, crate::proofs::Marking::mark_past))]
pub fn mark(marks: &mut [u8], x: u16, test: bool)
    ensures { MarkedToo x test marks.old marks.new }
{
    let i = usize::from(x);
    if i < marks.len() && test {
        marks[i] = 1;
    }
}

// Whether a number is marked.
#[tactic(auto, using(crate::proofs::Marking::unmarked_past), unfolding(crate::specs::Marks::marked))]
pub fn is_marked(marks: &[u8], x: usize) -> bool
    ensures { result ≡ marked marks.now x }
{
    x < marks.len() && marks[x] == 1
}

// The marks of a log. Words that no table has as a line are passed over.
pub fn marks_of(log: &[u16]) -> [u8; 4096]
    ensures { Marked log.now result }
{
    let mut marks = [0u8; 4096];
    for x in log {
        mark(&mut marks, *x, true);
    }
    marks
}

// Whether a literal has a tag among the lines that are marked. Any number serves as a tag: an enum would ask more of callers.
pub fn has_line(marks: &[u8], q: Literal, tag: u16) -> bool
    ensures { result ≡ marked marks.now (4 * q.0 + tag) }
{
    is_marked(marks, 4 * usize::from(q.0) + usize::from(tag))
}
