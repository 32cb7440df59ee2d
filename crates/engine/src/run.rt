// The run of a table in a reading, under a budget, in buffers that the caller lends. What is refused writes nothing. Past the judgement a table is its
// layout, here and in every other file of this crate: editions end in `run`.
ghost use Rattle.std.specs.Prelude.{◌+◌, ◌*◌, ◌≤◌, ◌≡◌, length, Ok};
ghost use Rattle.table.specs.Format.{theory_of};
ghost use Rattle.table.specs.Refusals.{judgement_of};
ghost use Rattle.table.specs.Tables.{theory_said};
ghost use Rattle.engine.specs.declared.answer.Answer.TheVariants.{Refused};
ghost use Rattle.engine.specs.Readings.{run_of};
ghost use Rattle.engine.specs.Answers.{numbers_of, Ran};
ghost use Rattle.engine.specs.Working.{Paid, Worked};
ghost use Rattle.memory.specs.Layout.{tag_count, memory_size};

use crate::answer::{Answer, Counts, Numbers};
use crate::lines::Lines;
use crate::reading::Reading;
use memory::layout::MEMORY_SIZE;
use memory::prepare::{clear, prepare};
use table::accepted::Table;
use table::edition::Edition;
use table::format::Sizes;
use table::judge::Refusal;
use values::copy_words;

// The words of scratch that a run needs.
pub const SCRATCH: usize = MEMORY_SIZE;

// A run of a table in a reading, under a budget that its start fits.
#[derive(Clone, Copy)]
struct PaidRun<'a> {
    table: Table<'a>,
    reading: Reading,
    budget: u32,
    start: u32,
    ghost paid: { Paid table budget start },
}

// A + F + N + B + P.
fn size_of(s: Sizes) -> u32
    ensures { result ≡ s.atoms + s.facts + s.rules + s.entries + s.pairs }
{
    let atoms = u32::from(s.atoms);
    atoms + u32::from(s.facts) + u32::from(s.rules) + u32::from(s.entries) + u32::from(s.pairs)
}

// "A refusal returns its number alone and writes nothing."
fn refuse(why: Refusal, log: &mut [u16], scratch: &mut [u16]) -> Answer
    ensures { (result ≡ Refused why) × (log.new ≡ log.old) × (scratch.new ≡ scratch.old) }
{
    Answer::Refused(why)
}

// A run whose start is paid, in a log with room for every line. Here and below log and scratch are two parameters: of a struct of the two each
// contract would also have to say that both references stay in it.
fn run_started(run: PaidRun, log: &mut [u16], scratch: &mut [u16]) -> Answer
    requires { (memory_size ≤ length scratch.old) × (tag_count * run.table.sizes.atoms ≤ length log.old) }
    ensures { Worked (run_of run.entry.reading (theory_said run.entry.table) run.entry.budget) scratch.old log.old scratch.new log.new result }
{
    prepare(run.table, scratch);
    let mut lines = Lines {
        table: run.table,
        mem: &mut *scratch,
        log: &mut *log,
        count: 0,
    };
    lines.write_initial();
    lines.work(run.reading, run.budget, run.start)
}

// A run in a draft, whose lines are copied: whether the log has a word for each is known at the end, and what is refused writes nothing.
fn run_copied(
    run: PaidRun,
    log: &mut [u16],
    scratch: &mut [u16],
    draft: &mut [u16],
    mem: &mut [u16],
) -> Answer
    requires { (memory_size ≤ length scratch.old) × (memory_size ≤ length mem.old) × (tag_count * run.table.sizes.atoms ≤ length draft.old) }
    ensures { Ran run.entry.reading (Ok run.entry.table.sizes) (theory_said run.entry.table) run.entry.budget log.old log.new scratch.old scratch.new (numbers_of result) }
{
    let answer = run_started(run, draft, mem);
    let lines = Numbers::from(answer).lines as usize;
    if log.len() < lines {
        return refuse(Refusal::ShortLog, log, scratch);
    }
    copy_words(draft, lines, log);
    clear(scratch);
    answer
}

// A run in buffers of its own, 69,632 bytes of stack, for which only runs in short logs pay, since it is not taken into its caller.
#[inline(never)]
fn run_apart(run: PaidRun, log: &mut [u16], scratch: &mut [u16]) -> Answer
    requires { memory_size ≤ length scratch.old }
    ensures { Ran run.entry.reading (Ok run.entry.table.sizes) (theory_said run.entry.table) run.entry.budget log.old log.new scratch.old scratch.new (numbers_of result) }
{
    let mut draft = [0u16; 4 * Sizes::MAX_ATOMS as usize];
    let mut mem = [0u16; SCRATCH];
    run_copied(run, log, scratch, &mut draft, &mut mem)
}

// A run in a short log (document 02, S-2). Of a longer scratch only the words that are to be cleared are lent. For that it calls itself.
fn run_short(run: PaidRun, log: &mut [u16], scratch: &mut [u16]) -> Answer
    requires { memory_size ≤ length scratch.old }
    ensures { Ran run.entry.reading (Ok run.entry.table.sizes) (theory_said run.entry.table) run.entry.budget log.old log.new scratch.old scratch.new (numbers_of result) }
{
    if SCRATCH < scratch.len() {
        return run_short(run, log, &mut scratch[0..SCRATCH]);
    }
    run_apart(run, log, scratch)
}

// The run of an accepted table. It leaves the scratch cleared.
fn run_accepted(
    table: Table,
    reading: Reading,
    budget: u32,
    log: &mut [u16],
    scratch: &mut [u16],
) -> Answer
    ensures { Ran reading (Ok table.entry.sizes) (theory_said table.entry) budget log.old log.new scratch.old scratch.new (numbers_of result) }
{
    if scratch.len() < SCRATCH {
        return refuse(Refusal::ShortScratch, log, scratch);
    }
    let size = size_of(table.sizes);
    if budget < size {
        clear(scratch);
        return Answer::Stopped(Counts {
            lines: 0,
            worked: 0,
            spent: 0,
        });
    }
    let run = PaidRun {
        table,
        reading,
        budget,
        start: size,
    };
    // 4A words have room for every line.
    if log.len() < 4 * usize::from(table.sizes.atoms) {
        return run_short(run, log, scratch);
    }
    let answer = run_started(run, log, scratch);
    clear(scratch);
    answer
}

pub fn run(
    table: &[u8],
    edition: Edition,
    reading: Reading,
    budget: u32,
    log: &mut [u16],
    scratch: &mut [u16],
) -> Answer
    ensures { Ran reading (judgement_of edition table.now) (theory_of edition table.now) budget log.old log.new scratch.old scratch.new (numbers_of result) }
{
    match Table::read(table, edition) {
        Ok(table) => run_accepted(table, reading, budget, log, scratch),
        Err(why) => refuse(why, log, scratch),
    }
}
