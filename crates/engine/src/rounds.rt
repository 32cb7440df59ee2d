// Document 02, S-9: where no line is left to work, the searches of the reading are made, and what one adds is worked in its turn. The plain
// reading has none.
ghost use Rattle.std.specs.Prelude.{suc, ◌-◌, ◌≤◌, ◌<◌, ◌≡◌, cond, T, leb, ltb};
ghost use Rattle.logic.specs.Tests.{◌and◌};
ghost use Rattle.engine.specs.declared.answer.Answer.TheVariants.{Stopped, Finished};
ghost use Rattle.engine.specs.Readings.{reading_of};
ghost use Rattle.engine.specs.Working.{counts_at};

use crate::answer::{Answer, Counts};
use crate::lines::Lines;
use crate::reading::{Reading, search_count};
use crate::tally::Tally;
use crate::tries::write_line;
use memory::layout::TAGS;
use memory::marks::is_written;
use searching::outside::Outside;
use values::both;

// Whether a search is made next: no line is left, not all of them were idle one after the other, and the start's cost fits what is left.
fn searches_next(
    lines: u32,
    tally: Tally,
    idle: u16,
    reading: Reading,
    budget: u32,
    start: u32,
) -> bool
    requires { tally.spent ≤ budget }
    ensures { result ≡ (leb lines tally.worked and ltb idle (reading_of reading).searches and leb start (budget - tally.spent)) }
{
    let due = both(lines <= tally.worked, idle < search_count(reading));
    both(due, start <= budget - tally.spent)
}

// How many searches in a row were idle: where one was made, one more or none.
fn idle_after(idle: u16, made: bool, same: bool) -> u16
    requires { T made → idle < 2 }
    ensures { result ≡ cond made (cond same (suc idle) 0) idle }
{
    if !made {
        return idle;
    }
    if same { idle + 1 } else { 0 }
}

// "worked and spent are those that the tally holds at the end"
fn answer_at(lines: u32, tally: Tally, finished: bool) -> Answer
    ensures { result ≡ cond finished (Finished (counts_at lines tally)) (Stopped (counts_at lines tally)) }
{
    let counts = Counts {
        lines,
        worked: tally.worked,
        spent: tally.spent,
    };
    if finished {
        Answer::Finished(counts)
    } else {
        Answer::Stopped(counts)
    }
}

impl Lines<'_> {
    ghost use Rattle.std.specs.Prelude.{ℕ, ◌+◌, ◌*◌, ◌≤◌, ◌<◌, ◌≡◌, false, T, take};
    ghost use Rattle.logic.specs.Tests.{member};
    ghost use Rattle.logic.specs.Theory.{size};
    ghost use Rattle.logic.specs.Worklist.{initial};
    ghost use Rattle.logic.specs.Plain.{plain_system};
    ghost use Rattle.table.specs.Tables.{theory_said};
    ghost use Rattle.memory.specs.Layout.{tag_count};
    ghost use Rattle.memory.specs.Memory.{held_of};
    ghost use Rattle.searching.specs.Leaving.{Stays};
    ghost use Rattle.engine.specs.Readings.{run_of};
    ghost use Rattle.engine.specs.Working.{Yielded, Worked};
    ghost use Rattle.engine.specs.Lines.{RefutedIn, SearchedBy, SearchAsksIn, SearchedIfIn, Lent};

    // Tag t of literal q is written, if a search found it and it is not written yet.
    fn refute_if(&mut self, q: u16, t: u16, found: bool)
        requires { (q < 2 * self.old.table.sizes.atoms) × (t < tag_count) × (T found → Yielded (theory_said self.old.table) self.old.log.now self.old.count (tag_count * q + t)) }
        ensures refuted { RefutedIn found (tag_count * q + t) self.old self.new }
        ensures lent { Lent self.old self.new }
    {
        if !found {
            return;
        }
        let mem = &mut *self.mem;
        if is_written(mem, q, t) {
            return;
        }
        write_line(
            self.table,
            self.mem,
            self.log,
            &mut self.count,
            TAGS * q + t,
        );
    }

    // What search i found is written, by literal: what has not left is in its set.
    fn write_found(&mut self, i: u16, outside: &Outside)
        requires asked { (i < 2) × ((x : ℕ) → held_of self.old.mem.now x ≡ member x (take self.old.count self.old.log.now)) }
        requires set { Stays (theory_said self.old.table) self.old.mem.now i outside.now.gone }
        ensures searched { SearchedBy i self.old self.new }
        ensures lent { Lent self.old self.new }
    {
        for q in 0..2 * self.table.sizes.atoms {
            let found = outside.gone[q as usize] == 0;
            self.refute_if(q, 2 * i + 1, found);
        }
    }

    // Search i is made where everything is processed. What it works on is 6,152 bytes of stack.
    fn search(&mut self, i: u16)
        requires { (i < 2) × ((x : ℕ) → held_of self.old.mem.now x ≡ member x (take self.old.count self.old.log.now)) }
        ensures searched { SearchedBy i self.old self.new }
        ensures lent { Lent self.old self.new }
    {
        let mut outside = Outside::nothing();
        let mem = &mut *self.mem;
        outside.find(self.table, mem, i);
        self.write_found(i, &outside);
    }

    // Search i is made for the start's cost, through the tally, if the test says so.
    fn search_if(&mut self, tally: Tally, i: u16, start: u32, test: bool) -> Tally
        requires { T test → SearchAsksIn self.old tally i start }
        ensures searched { SearchedIfIn test i start self.old tally self.new result }
        ensures lent { Lent self.old self.new }
    {
        if !test {
            return tally;
        }
        self.search(i);
        Tally {
            worked: tally.worked,
            spent: tally.spent + start,
        }
    }

    // The run past its start: lines are worked, and searches made, until the next does not fit or all searches were idle one after the other.
    // A `while`, since no range has its turns: whether there is one more shows in the turn before.
    pub fn work(&mut self, reading: Reading, budget: u32, start: u32) -> Answer
        requires opened { (take self.old.count self.old.log.now ≡ initial (plain_system (theory_said self.old.table))) × ((x : ℕ) → held_of self.old.mem.now x ≡ false) }
        requires paid { (start ≡ size (theory_said self.old.table)) × (start ≤ budget) }
        ensures worked { Worked (run_of reading (theory_said self.old.table) budget) self.old.mem.now self.old.log.now self.new.mem.now self.new.log.now result }
        ensures lent { Lent self.old self.new }
    {
        let mut tally = Tally {
            worked: 0,
            spent: start,
        };
        let mut idle: u16 = 0;
        let mut more = true;
        while more {
            let quiet = self.work_lines(budget, tally);
            let lines = self.count;
            more = searches_next(lines, quiet, idle, reading, budget, start);
            tally = self.search_if(quiet, idle, start, more);
            idle = idle_after(idle, more, self.count == lines);
        }
        let finished = both(self.count <= tally.worked, search_count(reading) <= idle);
        answer_at(self.count, tally, finished)
    }
}
