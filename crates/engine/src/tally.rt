// A line is worked (document 01, The rule of working, and its price): "A single running tally of worked and spent is lent to each
// working and changed there."
ghost use Rattle.std.specs.Prelude.{◌≡◌, true, false, ◌*◌, ◌/◌, ◌<◌};
ghost use Rattle.table.specs.Tables.{theory_said};
ghost use Rattle.memory.specs.Layout.{tag_count};
ghost use Rattle.memory.specs.Memory.{held_of, written_of};
ghost use Rattle.memory.specs.Api.{UsesAt};
ghost use Rattle.engine.specs.Working.{Processed};
ghost use Rattle.engine.specs.Lines.{NextIn, SteppedIn, Lent};

use crate::lines::Lines;
use memory::charging::cost;
use memory::layout::TAGS;
use memory::uses::{Uses, uses_of};
use memory::visit::add;

// How many lines were processed, and what was spent. Document 01 names the form: two numbers, lent to a thin function over one that takes them.
#[derive(Clone, Copy)]
pub struct Tally {
    pub worked: u32,
    pub spent: u32,
}

impl Lines<'_> {
    // A conclusion is processed, and what is tried after it is tried.
    fn try_after(&mut self, x: u16, uses: Uses)
        requires line { (x < tag_count * (2 * self.old.table.sizes.atoms)) × (written_of self.old.mem.now x ≡ true) × (held_of self.old.mem.now x ≡ false) }
        requires uses_at { UsesAt (theory_said self.old.table) (x / tag_count) uses.first uses.end }
        ensures processed { Processed (theory_said self.old.table) x self.old.mem.now self.old.log.now self.old.count self.new.mem.now self.new.log.now self.new.count }
        ensures lent { Lent self.old self.new }
    {
        add(self.table, self.mem, x, uses);
        self.try_both(x / TAGS);
        self.try_uses(x / TAGS, x % TAGS < 2, uses);
    }

    // The next line is processed, if its cost fits what is left of the budget. The tally after it is returned.
    fn process(&mut self, budget: u32, worked: u32, spent: u32) -> Tally
        requires { NextIn budget self.old (record { worked = worked; spent = spent }) }
        ensures stepped { SteppedIn budget self.old (record { worked = worked; spent = spent }) self.new result }
        ensures lent { Lent self.old self.new }
    {
        let x = self.log[worked as usize];
        let mem = &mut *self.mem;
        let uses = uses_of(self.table, mem, x / TAGS);
        let due = cost(mem, x, uses);
        if budget - spent < due {
            return Tally { worked, spent };
        }
        self.try_after(x, uses);
        Tally {
            worked: worked + 1,
            spent: spent + due,
        }
    }

    // The same with the tally lent: its two numbers are copied out, and written back.
    fn process_with(&mut self, budget: u32, tally: &mut Tally)
        requires { NextIn budget self.old tally.old }
        ensures stepped { SteppedIn budget self.old tally.old self.new tally.new }
        ensures lent { Lent self.old self.new }
    {
        let after = self.process(budget, tally.worked, tally.spent);
        tally.worked = after.worked;
        tally.spent = after.spent;
    }

    // The same by value: what the loop calls. The tally is lent for one line.
    pub fn process_next(&mut self, budget: u32, at: Tally) -> Tally
        requires { NextIn budget self.old at }
        ensures stepped { SteppedIn budget self.old at self.new result }
        ensures lent { Lent self.old self.new }
    {
        let mut tally = at;
        self.process_with(budget, &mut tally);
        tally
    }
}
