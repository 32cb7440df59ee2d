// Which conclusions are written: the mark of a conclusion is 0 where it is not written, 1 where it is, and 2 once it is processed, as
// `written_of` and `held_of` have it.
ghost use Rattle.std.specs.Prelude.{◌+◌, ◌*◌, ◌≤◌, ◌<◌, ◌≡◌, false, length};
ghost use Rattle.logic.specs.Tests.{◌or◌};
ghost use Rattle.table.specs.Format.{theory_in};
ghost use Rattle.memory.specs.Layout.{tag_count, field_size, memory_size};
ghost use Rattle.memory.specs.Memory.{written_of, Ready};
ghost use Rattle.memory.specs.Api.{Wrote};

use crate::layout::TAGS;
use crate::words::{load, store};
use table::format::Sizes;
use values::either;

// Whether tag t of literal q is written.
pub fn is_written(mem: &[u16], q: u16, t: u16) -> bool
    requires { (q < field_size) × (t < tag_count) × (memory_size ≤ length mem.now) }
    ensures { result ≡ written_of mem.now (tag_count * q + t) }
{
    load(mem, t as usize, q as usize) != 0
}

// Whether tag t of literal q is written, or tag t + 1.
pub fn either_written(mem: &[u16], q: u16, t: u16) -> bool
    requires { (q < field_size) × (t < 3) × (memory_size ≤ length mem.now) }
    ensures { result ≡ (written_of mem.now (tag_count * q + t) or written_of mem.now (tag_count * q + (t + 1))) }
{
    let first = load(mem, t as usize, q as usize) != 0;
    either(first, load(mem, t as usize + 1, q as usize) != 0)
}

// It takes no `Table`, which would ask for a legal one.
pub fn write(table: &[u8], s: Sizes, mem: &mut [u16], x: u16)
    requires { Ready (theory_in table.now s) mem.old × (s.atoms ≤ 512) × (x < tag_count * (2 * s.atoms)) × (written_of mem.old x ≡ false) }
    ensures { Wrote (theory_in table.now s) x mem.old mem.new }
{
    store(mem, usize::from(x % TAGS), usize::from(x / TAGS), 1);
}
