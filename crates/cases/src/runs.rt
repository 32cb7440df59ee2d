// A run of the engine on buffers of noise: what it answers, and what it leaves in every word of the buffers, borrowed or not.
ghost use Rattle.std.specs.Prelude.{◌≤◌};

use crate::difference::{Difference, What, differs, items_differ};
use crate::noise::{SIZE, noise};
use crate::stream::Words;
use engine::answer::Numbers;
use engine::reading::Reading;
use engine::run::run;
use std::array;
use table::edition::Edition;
use table::judge::judge;

// A run: the edition, the reading, the budget and how many words of log and of scratch are borrowed; the numbers that must come out, and the
// words of the log.
#[derive(Clone, Copy)]
pub struct Run<'a> {
    pub edition: Edition,
    pub reading: Reading,
    pub budget: u32,
    pub log: usize,
    pub scratch: usize,
    pub numbers: Numbers,
    pub words: Words<'a>,
    pub ghost in_buffers: { (log ≤ 65536) × (scratch ≤ 65536) },
}

// The number of a table's refusal, or 0.
fn judged(table: &[u8], edition: Edition) -> u32 {
    judge(table, edition).err().map_or(0, u32::from)
}

fn numbers_differ(judged: u32, came: Numbers, want: Numbers) -> Option<Difference> {
    // 8 and 9 are refusals of the buffers.
    differs(What::Judged, judged, want.refused % 9 % 8)
        .or(differs(What::Refused, came.refused, want.refused))
        .or(differs(What::Finished, came.finished, want.finished))
        .or(differs(What::Lines, came.lines, want.lines))
        .or(differs(What::Worked, came.worked, want.worked))
        .or(differs(What::Spent, came.spent, want.spent))
}

// A log or a list must hold words, and noise past them.
pub fn words_differ(what: What, came: &[u16], words: Words, seed: u32) -> Option<Difference> {
    items_differ(
        what,
        came,
        |i| words.get(i).unwrap_or_else(|| noise(seed, i)),
    )
}

// The scratch must be 0 where a run cleared it.
fn scratch_differs(scratch: &[u16], refused: u32, seed: u32) -> Option<Difference> {
    let cleared = if refused == 0 { 32768 } else { 0 };
    items_differ(What::Scratch, scratch, |i| {
        if i < cleared { 0 } else { noise(seed, i) }
    })
}

// The first difference of a run.
pub fn run_differs(record: u32, table: &[u8], want: Run) -> Option<Difference> {
    let log_seed = record % 32768;
    let scratch_seed = log_seed + 32768;
    let mut log: [u16; SIZE] = array::from_fn(|i| noise(log_seed, i));
    let mut scratch: [u16; SIZE] = array::from_fn(|i| noise(scratch_seed, i));
    let edition = want.edition;
    let reading = want.reading;
    let answer = run(
        table,
        edition,
        reading,
        want.budget,
        &mut log[..want.log],
        &mut scratch[..want.scratch],
    );
    numbers_differ(judged(table, edition), Numbers::from(answer), want.numbers)
        .or(words_differ(What::Log, &log, want.words, log_seed))
        .or(scratch_differs(&scratch, want.numbers.refused, scratch_seed))
}
