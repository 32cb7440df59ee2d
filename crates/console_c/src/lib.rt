// The exports that a console written in C links (include/flyrules.h). Each is the function of crate console of its name, with its contract: a
// crate is a library or a static library, and not both.
#![tactic(auto)]

ghost use Rattle.std.specs.Prelude.{◌≡◌};
ghost use Rattle.report.specs.Sheet.{Printed};
ghost use Rattle.console.specs.Told.{told_by, reading_by, RanTold, standing_told, ConvertedTold, JoinedTold, PartedTold, ListedTold};

use engine::answer::Numbers;
use standing::answer::StandingNumbers;
use writing::answer::WrittenNumbers;

#[unsafe(no_mangle)]
pub extern "C" fn fly_run(
    table: &[u8],
    edition: u32,
    reading: u32,
    budget: u32,
    log: &mut [u16],
    scratch: &mut [u16],
) -> Numbers
    ensures { RanTold (told_by edition) (reading_by reading) table.now budget log.old log.new scratch.old scratch.new result }
{
    console::fly_run(table, edition, reading, budget, log, scratch)
}

#[unsafe(no_mangle)]
pub extern "C" fn fly_sheet(table: &[u8], out: &mut [u8; 5041]) -> u32
    ensures { Printed table.now out.new result }
{
    console::fly_sheet(table, out)
}

#[unsafe(no_mangle)]
pub extern "C" fn fly_stands(table: &[u8], edition: u32, rule: u32, log: &[u16]) -> StandingNumbers
    ensures { result ≡ standing_told (told_by edition) table.now rule log.now }
{
    console::fly_stands(table, edition, rule, log)
}

#[unsafe(no_mangle)]
pub extern "C" fn fly_convert(table: &[u8], edition: u32, out: &mut [u8]) -> WrittenNumbers
    ensures { ConvertedTold (told_by edition) table.now out.old out.new result }
{
    console::fly_convert(table, edition, out)
}

#[unsafe(no_mangle)]
pub extern "C" fn fly_join(
    house: &[u8],
    tour: &[u8],
    edition: u32,
    out: &mut [u8],
) -> WrittenNumbers
    ensures { JoinedTold (told_by edition) house.now tour.now out.old out.new result }
{
    console::fly_join(house, tour, edition, out)
}

#[unsafe(no_mangle)]
pub extern "C" fn fly_parts(table: &[u8], edition: u32, list: &mut [u16]) -> u32
    ensures { ListedTold (told_by edition) table.now list.old list.new result }
{
    console::fly_parts(table, edition, list)
}

#[unsafe(no_mangle)]
pub extern "C" fn fly_part(table: &[u8], edition: u32, atom: u32, out: &mut [u8]) -> WrittenNumbers
    ensures { PartedTold (told_by edition) table.now atom out.old out.new result }
{
    console::fly_part(table, edition, atom, out)
}
