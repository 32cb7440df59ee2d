// The worklist (document 01, The rule of working, and its price): the initial conclusions are written, and then the lines are
// processed in the log's order, each for its cost, while it fits the budget.
ghost use Rattle.std.specs.Prelude.{◌≡◌};
ghost use Rattle.table.specs.Tables.{theory_said};
ghost use Rattle.engine.specs.Working.{Blank, Opened};
ghost use Rattle.engine.specs.Lines.{ReachedIn, LinedIn, Lent};

use crate::lines::Lines;
use crate::tally::Tally;

impl Lines<'_> {
    // What follows from nothing is written.
    pub fn write_initial(&mut self)
        requires { Blank (theory_said self.old.table) self.old.mem.now × (self.old.count ≡ 0) }
        ensures opened { Opened (theory_said self.old.table) self.old.mem.now self.old.log.now self.new.mem.now self.new.log.now self.new.count }
        ensures lent { Lent self.old self.new }
    {
        for q in 0..2 * self.table.sizes.atoms {
            self.try_literal(q);
        }
    }

    // The lines are processed, until none is left or the cost of the next does not fit what is left: then the tally is as it was.
    // A `while`, since no range has its end: the number of lines grows in the loop.
    pub fn work_lines(&mut self, budget: u32, from: Tally) -> Tally
        requires { ReachedIn budget self.old from }
        ensures lined { LinedIn budget self.old from self.new result }
        ensures lent { Lent self.old self.new }
    {
        let mut tally = from;
        while tally.worked < self.count {
            let next = self.process_next(budget, tally);
            if next.worked == tally.worked {
                return next;
            }
            tally = next;
        }
        tally
    }
}
