// The records of each kind, after their table.
use crate::difference::{Difference, What, differs, items_differ};
use crate::noise::{SIZE, noise_byte};
use crate::runs::{Run, run_differs};
use crate::stream::{Stream, Words};
use convert::convert::convert;
use engine::answer::Numbers;
use engine::reading::Reading;
use report::sheet::sheet_of;
use std::array;
use table::body::body;
use table::edition::Edition;
use table::judge::Refusal;
use writing::answer::WrittenNumbers;

// base.bin: u32 budget, u16 answer (0 finished, 255 stopped, else the number of a refusal), u16 lines, u16 worked, u32 spent, `lines`
// words of log. The buffers are long enough.
pub fn base_differs(rest: &mut Stream, record: u32, table: &[u8]) -> Option<Difference> {
    let budget = rest.long();
    let answer = u32::from(rest.word());
    let lines = u32::from(rest.word());
    let numbers = Numbers {
        refused: answer % 255,
        finished: u32::from(answer == 0),
        lines,
        worked: u32::from(rest.word()),
        spent: rest.long(),
    };
    let want = Run {
        edition: Edition::Old,
        reading: Reading::Plain,
        budget,
        log: 2051,
        scratch: 32773,
        numbers,
        words: rest.words(lines),
    };
    run_differs(record, table, want)
}

// 1 where the run finishes, and the counts.
fn numbers(rest: &mut Stream, refused: u32) -> Numbers {
    Numbers {
        refused,
        finished: rest.number(),
        lines: rest.number(),
        worked: rest.number(),
        spent: rest.number(),
    }
}

// The words of a log, behind the number of their bytes.
fn log_words<'a>(rest: &mut Stream<'a>) -> Words<'a> {
    let n = rest.long() / 2;
    rest.words(n)
}

// The fields of a run, and the log.
fn fields_differ(
    rest: &mut Stream,
    record: u32,
    table: &[u8],
    edition: Edition,
    reading: Reading,
) -> Option<Difference> {
    let budget = rest.number();
    let log = rest.size();
    let scratch = rest.size();
    let refused = rest.number();
    let want = Run {
        edition,
        reading,
        budget,
        log,
        scratch,
        numbers: numbers(rest, refused),
        words: log_words(rest),
    };
    run_differs(record, table, want)
}

// made.bin and short-logs.bin: a run of a table in the old layout.
pub fn made_differ(rest: &mut Stream, record: u32, table: &[u8]) -> Option<Difference> {
    fields_differ(rest, record, table, Edition::Old, Reading::Plain)
}

// told.bin: the edition, and a run.
pub fn told_differ(rest: &mut Stream, record: u32, table: &[u8]) -> Option<Difference> {
    let edition = rest.edition();
    fields_differ(rest, record, table, edition, Reading::Plain)
}

// readings.bin: the reading, the edition, and a run.
pub fn readings_differ(rest: &mut Stream, record: u32, table: &[u8]) -> Option<Difference> {
    let reading = rest.reading();
    let edition = rest.edition();
    fields_differ(rest, record, table, edition, reading)
}

// well-founded.bin: the budget; 1 where the run finishes, the counts, and the log. The buffers are long enough.
pub fn searched_differs(rest: &mut Stream, record: u32, table: &[u8]) -> Option<Difference> {
    let want = Run {
        edition: Edition::Old,
        reading: Reading::WellFounded,
        budget: rest.number(),
        log: 2051,
        scratch: 32773,
        numbers: numbers(rest, 0),
        words: log_words(rest),
    };
    run_differs(record, table, want)
}

// The length, and then each byte, 0 past the end of what is wanted.
fn text_differs(length: usize, came: &[u8], rest: &mut Stream) -> Option<Difference> {
    let n = rest.long();
    let text = rest.bytes(n);
    differs(What::Length, (length % 65536) as u32, n).or(items_differ(
        What::Byte,
        came,
        |i| text.get(i).copied().unwrap_or(0),
    ))
}

// The edition, the rule, and the bytes of its body.
pub fn body_differs(rest: &mut Stream, table: &[u8]) -> Option<Difference> {
    let edition = rest.edition();
    let came = body(table, edition, rest.number() as usize);
    text_differs(came.len(), came, rest)
}

// The text of the sheet.
pub fn sheet_differs(rest: &mut Stream, table: &[u8]) -> Option<Difference> {
    let sheet = sheet_of(table);
    text_differs(sheet.length, &sheet.bytes, rest)
}

// How many bytes of output are borrowed, the refusal, and the new file, past which the output is as it was: what a call answers that writes
// a table, and the whole output.
pub fn written_differs<F: FnOnce(&mut [u8]) -> Result<u32, Refusal>>(
    rest: &mut Stream,
    record: u32,
    write: F,
) -> Option<Difference>
    requires { F.IsAlwaysCallable write }
{
    let k = rest.size();
    let refused = rest.number();
    let n = rest.long();
    let text = rest.bytes_left(n);
    let mut out: [u8; SIZE] = array::from_fn(|i| noise_byte(record, i));
    let came = WrittenNumbers::from(write(&mut out[..k]));
    differs(What::Refused, came.refused, refused)
        .or(differs(What::Length, came.bytes, n))
        .or(items_differ(What::Byte, &out, |i| {
            text.get(i)
                .copied()
                .unwrap_or_else(|| noise_byte(record, i))
        }))
}

// editions.bin and conversions.bin: the edition, and what is written.
pub fn conversion_differs(rest: &mut Stream, record: u32, table: &[u8]) -> Option<Difference> {
    let edition = rest.edition();
    written_differs(rest, record, |out| convert(table, edition, out))
}
