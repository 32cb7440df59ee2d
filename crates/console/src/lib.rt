// The functions that a console written in C calls (include/flyrules.h), on numbers and slices alone; crate console_c exports them. Each calls
// one proved function in the edition that it is told, and a run in the reading that it is told; the contract of that function is handed on whole.
// Each is a `match`: a closure that is not called, as by `and_then` on None, would have to say that the output which it holds is untouched.
#![tactic(auto)]

mod told;

ghost use Rattle.std.specs.Prelude.{◌≡◌, Err};
ghost use Rattle.table.specs.declared.judge.Refusal.TheVariants.{Truncated};
ghost use Rattle.writing.specs.Answers.{numbers_of};
ghost use Rattle.report.specs.Sheet.{Printed};
ghost use Rattle.console.specs.Told.{told_by, reading_by, RanTold, standing_told, ConvertedTold, JoinedTold, PartedTold, ListedTold};

use convert::convert::convert;
use engine::answer::{Answer, Numbers};
use engine::run::run;
use join::join::join;
use parts::answer::listing_number;
use parts::list::parts;
use parts::part::part;
use report::sheet::sheet_of;
use standing::answer::StandingNumbers;
use standing::stands::stands;
use table::judge::Refusal;
use told::{reading_by, told_by};
use writing::answer::WrittenNumbers;

pub fn fly_run(
    table: &[u8],
    edition: u32,
    reading: u32,
    budget: u32,
    log: &mut [u16],
    scratch: &mut [u16],
) -> Numbers
    ensures { RanTold (told_by edition) (reading_by reading) table.now budget log.old log.new scratch.old scratch.new result }
{
    match (told_by(edition), reading_by(reading)) {
        (Some(e), Some(m)) => Numbers::from(run(table, e, m, budget, log, scratch)),
        _ => Numbers::from(Answer::Refused(Refusal::Truncated)),
    }
}

pub fn fly_sheet(table: &[u8], out: &mut [u8; 5041]) -> u32
    ensures { Printed table.now out.new result }
{
    let sheet = sheet_of(table);
    out.copy_from_slice(&sheet.bytes);
    sheet.length as u32
}

pub fn fly_stands(table: &[u8], edition: u32, rule: u32, log: &[u16]) -> StandingNumbers
    ensures { result ≡ standing_told (told_by edition) table.now rule log.now }
{
    match told_by(edition) {
        Some(e) => StandingNumbers::from(stands(table, e, rule, log)),
        None => StandingNumbers::from(Err(Refusal::Truncated)),
    }
}

// What a call that writes a table answers to a number of no edition.
fn not_written() -> WrittenNumbers
    ensures { result ≡ numbers_of (Err Truncated) }
{
    WrittenNumbers::from(Err(Refusal::Truncated))
}

pub fn fly_convert(table: &[u8], edition: u32, out: &mut [u8]) -> WrittenNumbers
    ensures { ConvertedTold (told_by edition) table.now out.old out.new result }
{
    match told_by(edition) {
        Some(e) => WrittenNumbers::from(convert(table, e, out)),
        None => not_written(),
    }
}

pub fn fly_join(house: &[u8], tour: &[u8], edition: u32, out: &mut [u8]) -> WrittenNumbers
    ensures { JoinedTold (told_by edition) house.now tour.now out.old out.new result }
{
    match told_by(edition) {
        Some(e) => WrittenNumbers::from(join(house, tour, e, out)),
        None => not_written(),
    }
}

pub fn fly_parts(table: &[u8], edition: u32, list: &mut [u16]) -> u32
    ensures { ListedTold (told_by edition) table.now list.old list.new result }
{
    match told_by(edition) {
        Some(e) => listing_number(parts(table, e, list)),
        None => u32::from(Refusal::Truncated),
    }
}

pub fn fly_part(table: &[u8], edition: u32, atom: u32, out: &mut [u8]) -> WrittenNumbers
    ensures { PartedTold (told_by edition) table.now atom out.old out.new result }
{
    match told_by(edition) {
        Some(e) => WrittenNumbers::from(part(table, e, atom, out)),
        None => not_written(),
    }
}
