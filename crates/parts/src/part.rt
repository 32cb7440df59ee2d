// One part's own table. What is refused writes nothing.
ghost use Rattle.std.specs.Prelude.{◌≡◌};
ghost use Rattle.std.proofs.lemmas.List.Edits.{sets};
ghost use Rattle.files.specs.Contents.{sizes_for, file_of};
ghost use Rattle.writing.specs.Answers.{numbers_of};
ghost use Rattle.parting.specs.Parting.{part_of};
ghost use Rattle.parts.specs.Kept.{content_said};
ghost use Rattle.parts.specs.Calls.{PartedLayout, Parted};

use crate::chains::parts_of;
use crate::kept::{AtomPart, Renumbered};
use table::accepted::Table;
use table::edition::Edition;
use table::format::Sizes;
use table::judge::Refusal;
use writing::answer::refuse;
use writing::columns::{Side, begin, mark_bytes, write_sizes};

// The part's file at the front of the output, by its sizes. It is not taken into its caller, so that the new numbers do not lie under the judgement.
#[inline(never)]
fn write_file(out: &mut [u8], edition: Edition, sizes: Sizes, part: AtomPart)
    requires { sizes ≡ sizes_for (part_of (content_said part.table) part.atom) }
    ensures { out.new ≡ sets out.old 0 (file_of edition (part_of (content_said part.entry.table) part.entry.atom)) }
{
    let numbers = part.numbers();
    let from = begin(out, edition);
    write_sizes(out, from, sizes);
    let left = from + 10;
    let right = left + 2 * sizes.span();
    let renumbered = Renumbered {
        part,
        numbers: &numbers,
    };
    renumbered.write_side(out, left, Side::Left);
    renumbered.write_side(out, right, Side::Right);
}

// The part of an atom of a table.
#[tactic(auto, unfolding(crate::specs::Calls::with_atom, writing::specs::Output::answer_to, writing::specs::Output::output_after))]
fn part_layout(table: Table, atom: u32, edition: Edition, out: &mut [u8]) -> Result<u32, Refusal>
    ensures { PartedLayout edition table.entry.layout.now table.entry.sizes atom out.old out.new result }
{
    if u32::from(table.sizes.atoms) <= atom {
        return refuse(Refusal::OutOfRange, out);
    }
    let words = parts_of(table);
    let part = AtomPart {
        table,
        words: &words,
        atom: atom as usize,
    };
    let sizes = part.sizes();
    let bytes = mark_bytes(edition) + 10 + 4 * sizes.span();
    if out.len() < bytes {
        return refuse(Refusal::ShortOutput, out);
    }
    write_file(out, edition, sizes, part);
    Ok(bytes as u32)
}

// A refusal 1 to 7 of the table, 5 for an atom that it does not have, 12 for a short output; or the file of the part of that atom, and how
// many bytes it has.
#[tactic(auto, unfolding(crate::specs::Calls::with_atom, writing::specs::Output::answer_to, writing::specs::Output::output_after))]
pub fn part(table: &[u8], edition: Edition, atom: u32, out: &mut [u8]) -> Result<u32, Refusal>
    ensures { Parted edition table.now atom out.old out.new (numbers_of result) }
{
    let accepted = Table::read(table, edition)?;
    part_layout(accepted, atom, edition, out)
}
