// How a rule stands by +∂ and −∂, and what one antecedent more makes of it. Nothing else asks whether all antecedents of a rule have +∂, or
// one has −∂.
ghost use Rattle.std.specs.Prelude.{◌≤◌, ◌<◌, ◌≡◌, eqb, ltb, length};
ghost use Rattle.standing.specs.Answers.{meant};
ghost use Rattle.memory.specs.Layout.{tag_count, field_size, memory_size};
ghost use Rattle.memory.specs.Fields.{kind_f};
ghost use Rattle.memory.specs.Memory.{view};
ghost use Rattle.memory.specs.Deciding.{standing_with, decided_to};

use crate::fields::{HAS_PROVED, HAS_REFUTED, KIND, SIZE};
use crate::words::load;
use standing::answer::{Standing, first_fit};
use table::format::Kind;

// Whether rule r is strict, by the number of its kind that is in the memory.
pub fn is_strict_by(mem: &[u16], r: usize) -> bool
    requires { (r < field_size) × (memory_size ≤ length mem.now) }
    ensures { result ≡ eqb (view mem.now kind_f r) 0 }
{
    load(mem, KIND, r) == u16::from(Kind::Strict)
}

// Whether it can support: a defeater, whose number is the last, cannot.
pub fn can_support_by(mem: &[u16], r: usize) -> bool
    requires { (r < field_size) × (memory_size ≤ length mem.now) }
    ensures { result ≡ ltb (view mem.now kind_f r) 2 }
{
    load(mem, KIND, r) < u16::from(Kind::Defeater)
}

// How rule r stands, where so many antecedents more have +∂, and −∂.
pub fn standing(mem: &[u16], r: usize, plus: u32, minus: u32) -> Standing
    requires { (r < field_size) × (memory_size ≤ length mem.now) × (plus ≤ 1) × (minus ≤ 1) }
    ensures { meant result ≡ standing_with (view mem.now) plus minus r }
{
    let proved = u32::from(load(mem, HAS_PROVED, r));
    let size = u32::from(load(mem, SIZE, r));
    let refuted = u32::from(load(mem, HAS_REFUTED, r));
    first_fit(proved + plus == size, refuted + minus != 0)
}

// What one antecedent more with tag t, +∂ or −∂, makes of rule r, if it waits: firing or out, if the antecedent decides it (document 01:
// settles). A rule that is decided already is decided by no other.
pub fn decides(mem: &[u16], r: usize, t: usize) -> Standing
    requires { (r < field_size) × (memory_size ≤ length mem.now) × (2 ≤ t) × (t < tag_count) }
    ensures { meant result ≡ decided_to (view mem.now) t r }
{
    if standing(mem, r, 0, 0) != Standing::Waiting {
        return Standing::Waiting;
    }
    if t == 2 {
        standing(mem, r, 1, 0)
    } else {
        standing(mem, r, 0, 1)
    }
}
