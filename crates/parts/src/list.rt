// The list of the parts. What is refused writes nothing.
ghost use Rattle.parts.specs.Answers.{listing_number};
ghost use Rattle.parts.specs.Calls.{ListedLayout, Listed};

use crate::chains::parts_of;
use table::accepted::Table;
use table::edition::Edition;
use table::judge::Refusal;
use values::copy_words;

// The parts of a table. It is not taken into its caller, so that no array lies under the judgement.
#[tactic(auto, unfolding(crate::specs::Calls::with_list, crate::specs::Answers::listing_number, table::specs::Refusals::refused_by, writing::specs::Output::output_after))]
#[inline(never)]
fn list_layout(table: Table, list: &mut [u16]) -> Result<(), Refusal>
    ensures { ListedLayout table.entry.layout.now table.entry.sizes list.old list.new result }
{
    let n = usize::from(table.sizes.atoms);
    if list.len() < n {
        return Err(Refusal::ShortLog);
    }
    let words = parts_of(table);
    copy_words(&words, n, list);
    Ok(())
}

// A refusal 1 to 7 of the table, 9 for a list of fewer words than atoms; or the list, one word for each atom, the smallest of its part.
#[tactic(auto, unfolding(crate::specs::Calls::with_list, crate::specs::Answers::listing_number, table::specs::Refusals::refused_by, writing::specs::Output::output_after))]
pub fn parts(table: &[u8], edition: Edition, list: &mut [u16]) -> Result<(), Refusal>
    ensures { Listed edition table.now list.old list.new (listing_number result) }
{
    let accepted = Table::read(table, edition)?;
    list_layout(accepted, list)
}
