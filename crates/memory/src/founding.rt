// What the searches of document 02, S-9, ask of a literal and of a rule, over what is processed.
ghost use Rattle.std.specs.Prelude.{◌≤◌, ◌<◌, ◌≡◌, eqb, length};
ghost use Rattle.table.specs.Tables.{theory_said};
ghost use Rattle.memory.specs.Layout.{field_size, memory_size};
ghost use Rattle.memory.specs.Fields.{has};
ghost use Rattle.memory.specs.Memory.{view, NeverBothAt, Ready};

use crate::deciding::{can_support_by, is_strict_by, standing};
use crate::fields::{FACT, HAS, SIZE, UNOPPOSED};
use crate::inference::{is_processed, other};
use crate::words::load;
use standing::answer::Standing;
use table::accepted::Table;
use values::{both, either};

// A search of a table by what is processed. The definitions tell it by its number: 0 for −Δ, 1 for −∂.
#[derive(Clone, Copy)]
pub struct Search<'a> {
    pub table: Table<'a>,
    pub mem: &'a [u16],
    pub i: u16,
    pub ghost ready: { Ready (theory_said table) mem.now },
    pub ghost known: { i < 2 },
}

// Whether no antecedent of rule r has −∂, by how it stands (S-3).
fn is_live(mem: &[u16], r: usize) -> bool
    requires { (r < field_size) × (memory_size ≤ length mem.now) × NeverBothAt (view mem.now) r }
    ensures { result ≡ eqb (view mem.now (has 3) r) 0 }
{
    standing(mem, r, 0, 0) != Standing::Out
}

impl Search<'_> {
    ghost use Rattle.std.specs.Prelude.{suc, ◌*◌, ◌<◌, ◌≡◌, length};
    ghost use Rattle.logic.specs.Theory.{body_of};
    ghost use Rattle.table.specs.Tables.{theory_said};
    ghost use Rattle.memory.specs.Founding.{held_in, barred, secure, needy};

    pub fn is_barred(self, q: u16) -> bool
        requires { q < 2 * self.table.sizes.atoms }
        ensures { result ≡ barred (theory_said self.entry.table) (held_in self.entry.mem.now) self.entry.i q }
    {
        let n = q as usize;
        if self.i == 0 {
            0 < load(self.mem, FACT, n)
        } else {
            !is_processed(self.mem, n, 1)
        }
    }

    pub fn is_secure(self, q: u16) -> bool
        requires { q < 2 * self.table.sizes.atoms }
        ensures { result ≡ secure (theory_said self.entry.table) (held_in self.entry.mem.now) self.entry.i q }
    {
        if self.i == 0 {
            return false;
        }
        let n = other(q);
        either(
            is_processed(self.mem, n, 0),
            0 < load(self.mem, UNOPPOSED, n),
        )
    }

    pub fn is_needy(self, r: u16) -> bool
        requires { r < self.table.sizes.rules }
        ensures { result ≡ needy (theory_said self.entry.table) (held_in self.entry.mem.now) self.entry.i r }
    {
        let n = r as usize;
        if self.i == 0 {
            both(is_strict_by(self.mem, n), load(self.mem, HAS + 1, n) == 0)
        } else {
            both(can_support_by(self.mem, n), is_live(self.mem, n))
        }
    }

    // The antecedents of a rule, and a virtual one.
    pub fn body_size(self, r: u16) -> u16
        requires { r < self.table.sizes.rules }
        ensures { result ≡ suc (length (body_of (theory_said self.entry.table) r)) }
    {
        load(self.mem, SIZE, r as usize)
    }
}
