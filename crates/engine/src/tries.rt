// Conclusions are tried: what follows from what is processed, and is not written, is written at the end of the log. A tag is a number here
// too: a conclusion is four times its literal and the tag (document 01).
ghost use Rattle.std.specs.Prelude.{◌+◌, ◌*◌, ◌%◌, ◌<◌, ◌≡◌, false, [], ◌∷◌, eqb};
ghost use Rattle.logic.specs.Tests.{◌or◌, isnt};
ghost use Rattle.logic.specs.Theory.{complement};
ghost use Rattle.logic.specs.Reading.{heads, visited, with_tags};
ghost use Rattle.table.specs.Tables.{theory_said};
ghost use Rattle.memory.specs.Layout.{tag_count};
ghost use Rattle.memory.specs.Memory.{written_of};
ghost use Rattle.memory.specs.Api.{UsesAt};
ghost use Rattle.engine.specs.Working.{Logged, Yielded, Appended, heads_if, family_if};
ghost use Rattle.engine.specs.Lines.{TriedIn, Lent};

use crate::lines::Lines;
use memory::inference::follows;
use memory::layout::TAGS;
use memory::marks::{either_written, write};
use memory::uses::{Uses, head_of, is_strict, user_at};
use table::accepted::Table;
use table::format::Literal;

// Whether a conclusion visits a rule that uses its literal.
fn visits(definite: bool, strict: bool) -> bool
    ensures { result ≡ (isnt (eqb (family_if definite) 0) or strict) }
{
    !definite || strict
}

// A conclusion that the lines yield is marked in the memory, and goes to the end of the log. It takes the fields of `Lines`, of which the ghost
// field does not hold in between.
pub fn write_line(table: Table, mem: &mut [u16], log: &mut [u16], count: &mut u32, x: u16)
    requires { Logged (theory_said table) mem.old log.old count.old × (x < tag_count * (2 * table.sizes.atoms)) × (written_of mem.old x ≡ false) × Yielded (theory_said table) log.old count.old x }
    ensures { Appended (theory_said table.entry) x mem.old log.old count.old mem.new log.new count.new }
{
    write(table.layout, table.sizes, mem, x);
    log[*count as usize] = x;
    *count += 1;
}

impl Lines<'_> {
    // Tag t of literal q, which is not written.
    fn try_open(&mut self, q: u16, t: u16)
        requires { (q < 2 * self.old.table.sizes.atoms) × (t < tag_count) × (written_of self.old.mem.now (tag_count * q + t) ≡ false) }
        ensures tried { TriedIn ((tag_count * q + t) ∷ []) self.old self.new }
        ensures lent { Lent self.old self.new }
    {
        let x = TAGS * q + t;
        let mem = &mut *self.mem;
        if follows(self.table, mem, x) {
            write_line(self.table, self.mem, self.log, &mut self.count, x);
        }
    }

    // A tag of a literal and its opposite. Of the two only one is ever written, so nothing is tried once one of them is.
    fn try_opposites(&mut self, q: u16, t: u16)
        requires { (q < 2 * self.old.table.sizes.atoms) × (t < 3) × (t % 2 ≡ 0) }
        ensures tried { TriedIn ((tag_count * q + t) ∷ (tag_count * q + (t + 1)) ∷ []) self.old self.new }
        ensures lent { Lent self.old self.new }
    {
        let mem = &mut *self.mem;
        if either_written(mem, q, t) {
            return;
        }
        let count = self.count;
        self.try_open(q, t);
        if self.count == count {
            self.try_open(q, t + 1);
        }
    }

    // The four tags of a literal.
    pub fn try_literal(&mut self, q: u16)
        requires { q < 2 * self.old.table.sizes.atoms }
        ensures tried { TriedIn (with_tags tag_count (q ∷ [])) self.old self.new }
        ensures lent { Lent self.old self.new }
    {
        self.try_opposites(q, 0);
        self.try_opposites(q, 2);
    }

    // A literal and its complement.
    pub fn try_both(&mut self, q: u16)
        requires { q < 2 * self.old.table.sizes.atoms }
        ensures tried { TriedIn (with_tags tag_count (q ∷ complement q ∷ [])) self.old self.new }
        ensures lent { Lent self.old self.new }
    {
        self.try_literal(q);
        self.try_literal(Literal(q).complement().0);
    }

    // The head of a rule and its complement; after a definite conclusion, of a strict rule alone.
    fn try_rule(&mut self, r: u16, definite: bool)
        requires { r < self.old.table.sizes.rules }
        ensures tried { TriedIn (with_tags tag_count (heads_if (theory_said self.old.table) definite (r ∷ []))) self.old self.new }
        ensures lent { Lent self.old self.new }
    {
        let mem = &mut *self.mem;
        let table = self.table;
        if visits(definite, is_strict(table.layout, table.sizes, mem, r)) {
            let head = head_of(table.layout, table.sizes, mem, r);
            self.try_both(head);
        }
    }

    // The visited rules of a literal, by rule number.
    pub fn try_uses(&mut self, p: u16, definite: bool, uses: Uses)
        requires { (p < 2 * self.old.table.sizes.atoms) × UsesAt (theory_said self.old.table) p uses.first uses.end }
        ensures tried { TriedIn (with_tags tag_count (heads (theory_said self.old.table) (visited (theory_said self.old.table) (family_if definite) p))) self.old self.new }
        ensures lent { Lent self.old self.new }
    {
        let table = self.table;
        for k in uses.first..uses.end {
            let mem = &mut *self.mem;
            let r = user_at(table.layout, table.sizes, mem, p, uses, k);
            self.try_rule(r, definite);
        }
    }
}
