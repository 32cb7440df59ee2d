// The join: house and tour in one table. What is refused writes nothing.
ghost use Rattle.std.specs.Prelude.{◌≡◌, false};
ghost use Rattle.std.proofs.lemmas.List.Edits.{sets};
ghost use Rattle.table.specs.Refusals.{oversize};
ghost use Rattle.files.specs.Contents.{sizes_for, file_of};
ghost use Rattle.writing.specs.Answers.{numbers_of};
ghost use Rattle.join.specs.Calls.{JoinedLayouts, Joined};
ghost use Rattle.join.specs.Written.{joined_said};

use crate::arrays::write_side;
use crate::facts::{Both, facts_of};
use crate::totals::joined_sizes;
use table::accepted::Table;
use table::edition::Edition;
use table::format::Sizes;
use table::judge::Refusal;
use writing::answer::refuse;
use writing::columns::{Side, begin, mark_bytes, write_sizes};

// The joined file at the front of the output, by its sizes.
fn write_file(out: &mut [u8], edition: Edition, sizes: Sizes, both: Both)
    requires { (sizes ≡ sizes_for (joined_said both)) × (oversize sizes ≡ false) }
    ensures { out.new ≡ sets out.old 0 (file_of edition (joined_said both.entry)) }
{
    let from = begin(out, edition);
    write_sizes(out, from, sizes);
    let left = from + 10;
    let right = left + 2 * sizes.span();
    write_side(out, left, Side::Left, both, sizes.facts);
    write_side(out, right, Side::Right, both, sizes.facts);
}

// Two tables that are accepted, joined. It is not taken into its caller, so that no array lies under the judgements.
#[inline(never)]
fn join_tables(house: Table, tour: Table, edition: Edition, out: &mut [u8]) -> Result<u32, Refusal>
    ensures { JoinedLayouts edition house.entry.layout.now house.entry.sizes tour.entry.layout.now tour.entry.sizes out.old out.new result }
{
    if house.sizes.atoms != tour.sizes.atoms {
        return refuse(Refusal::AtomsDiffer, out);
    }
    let house_facts = facts_of(house);
    let tour_facts = facts_of(tour);
    let both = Both {
        house,
        tour,
        house_facts: &house_facts,
        tour_facts: &tour_facts,
    };
    let sizes = joined_sizes(both)?;
    let bytes = mark_bytes(edition) + 10 + 4 * sizes.span();
    if out.len() < bytes {
        return refuse(Refusal::ShortOutput, out);
    }
    write_file(out, edition, sizes, both);
    Ok(bytes as u32)
}

// A refusal 1 to 7 of the house's table, then of the tour's, 11 for different atom counts, 2 for joined sizes above a limit, 12 for a short
// output; or how many bytes the joined file has.
pub fn join(house: &[u8], tour: &[u8], edition: Edition, out: &mut [u8]) -> Result<u32, Refusal>
    ensures { Joined edition house.now tour.now out.old out.new (numbers_of result) }
{
    let host = Table::read(house, edition)?;
    let guest = Table::read(tour, edition)?;
    join_tables(host, guest, edition, out)
}
