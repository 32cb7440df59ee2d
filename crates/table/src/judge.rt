// Document 01, What the console turns away, with document 02, S-5: the judgement of a table.
ghost use Rattle.std.specs.Prelude.{◌≡◌};
ghost use Rattle.table.specs.Format.{sizes_of};
ghost use Rattle.table.specs.Refusals.{number_of, judged, Judged};

use crate::cycle::has_cycle;
use crate::edition::{Edition, is_unmarked, layout};
use crate::format::{Sizes, read_sizes};
use crate::order::unsorted;
use crate::range::{bad_kind, out_of_range};
use crate::whole::Layout;
use values::either;

// The refusals, with document 01's number and word, or document 02's number. Numbers 8, 9 and 12 are of the buffers of a call.
#[derive(Clone, Copy, PartialEq, Eq)]
pub enum Refusal {
    // 1, stub
    Truncated,
    // 2, oversize
    TooLarge,
    // 3, length
    WrongLength,
    // 4, kind
    BadKind,
    // 5, stranger
    OutOfRange,
    // 6, disorder
    Unsorted,
    // 7, circle
    Cyclic,
    // 8, scratch
    ShortScratch,
    // 9, log; of a converter, the output; of the parts, their list
    ShortLog,
    // 10, an origin that the old layout has no place for
    HasOrigin,
    // 11, two tables with different atom counts
    AtomsDiffer,
    // 12, an output shorter than the table that is to be written
    ShortOutput,
}

// The number that document 01 fixes.
impl From<Refusal> for u32 {
    ghost from_gives = { λ why n. n ≡ number_of why };

    fn from(why: Refusal) -> u32 {
        match why {
            Refusal::Truncated => 1,
            Refusal::TooLarge => 2,
            Refusal::WrongLength => 3,
            Refusal::BadKind => 4,
            Refusal::OutOfRange => 5,
            Refusal::Unsorted => 6,
            Refusal::Cyclic => 7,
            Refusal::ShortScratch => 8,
            Refusal::ShortLog => 9,
            Refusal::HasOrigin => 10,
            Refusal::AtomsDiffer => 11,
            Refusal::ShortOutput => 12,
        }
    }
}

// By the words of a layout, 4 to 7.
fn judge_words(layout: Layout, edition: Edition) -> Result<Sizes, Refusal>
    ensures { result ≡ judged edition layout.entry.bytes.now layout.entry.sizes }
{
    if bad_kind(layout, edition) {
        return Err(Refusal::BadKind);
    }
    if out_of_range(layout) {
        return Err(Refusal::OutOfRange);
    }
    if unsorted(layout) {
        return Err(Refusal::Unsorted);
    }
    // No pairs, no cycle.
    if layout.sizes.pairs == 0 {
        return Ok(layout.sizes);
    }
    if has_cycle(layout) {
        return Err(Refusal::Cyclic);
    }
    Ok(layout.sizes)
}

// The judgement of a layout that has the five sizes.
fn judge_layout(bytes: &[u8], edition: Edition) -> Result<Sizes, Refusal>
    ensures { result ≡ judged edition bytes.now (sizes_of bytes.now) }
{
    let sizes = read_sizes(bytes);
    // One of the five sizes above its limit, in three tests: past so many the compiler leaves two passes over the words in frames of their
    // own, and the stack of a run, which is the largest in the cycle test, is smaller (docs/DECISIONS.md).
    if Sizes::MAX_ATOMS < sizes.atoms {
        return Err(Refusal::TooLarge);
    }
    if either(
        Sizes::MAX_FACTS < sizes.facts,
        Sizes::MAX_RULES < sizes.rules,
    ) {
        return Err(Refusal::TooLarge);
    }
    if either(
        Sizes::MAX_ENTRIES < sizes.entries,
        Sizes::MAX_PAIRS < sizes.pairs,
    ) {
        return Err(Refusal::TooLarge);
    }
    if bytes.len() != 10 + 4 * sizes.span() {
        return Err(Refusal::WrongLength);
    }
    judge_words(Layout { bytes, sizes }, edition)
}

// The lowest number that applies anywhere in the table, or none.
pub fn judge(table: &[u8], edition: Edition) -> Result<Sizes, Refusal>
    ensures { Judged edition table.now result }
{
    if is_unmarked(table, edition) {
        return Err(Refusal::Truncated);
    }
    let l = layout(table, edition);
    if l.len() < 10 {
        return Err(Refusal::Truncated);
    }
    judge_layout(l, edition)
}
