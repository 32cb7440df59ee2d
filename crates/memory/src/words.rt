// The words of the memory, by field and index; nothing else indexes it, but what sets many of its words at once. It stays a slice, whose
// length each function asks of its caller: what lies past the memory is the caller's, and stays (`Kept`, which engine's promises rest on). A
// struct that lends it with its length in a ghost field was tried, and is no plainer: each function then says, in place of the length, that
// it lends the same words still, and each word lies behind two references.
ghost use Rattle.std.specs.Prelude.{◌+◌, ◌*◌, ◌≤◌, ◌<◌, ◌≡◌, length, set};
ghost use Rattle.memory.specs.Layout.{field_count, field_size, uses_base, uses_size, memory_size};
ghost use Rattle.memory.specs.Memory.{view, use_at};
ghost use Rattle.memory.specs.Indexing.{single, Grew};

use crate::layout::{FIELD_SIZE, USES_BASE};

pub fn load(mem: &[u16], field: usize, i: usize) -> u16
    requires { (field < field_count) × (i < field_size) × (memory_size ≤ length mem.now) }
    ensures { result ≡ view mem.now field i }
{
    mem[FIELD_SIZE * field + i]
}

pub fn store(mem: &mut [u16], field: usize, i: usize, value: u16)
    requires { (field < field_count) × (i < field_size) × (memory_size ≤ length mem.old) }
    ensures { mem.new ≡ set mem.old (field_size * field + i) value }
{
    mem[FIELD_SIZE * field + i] = value;
}

// A word with a number added.
pub fn raise(mem: &mut [u16], field: usize, i: usize, by: u16)
    requires { (field < field_count) × (i < field_size) × (memory_size ≤ length mem.old) × (view mem.old field i + by < 65536) }
    ensures value { mem.new ≡ set mem.old (field_size * field + i) (view mem.old field i + by) }
    ensures grew { Grew mem.old mem.new (single field i by) }
{
    let n = load(mem, field, i);
    store(mem, field, i, n + by);
}

// One more.
pub fn bump(mem: &mut [u16], field: usize, i: usize)
    requires { (field < field_count) × (i < field_size) × (memory_size ≤ length mem.old) × (view mem.old field i < 65535) }
    ensures { mem.new ≡ set mem.old (field_size * field + i) (view mem.old field i + 1) }
{
    raise(mem, field, i, 1);
}

pub fn load_use(mem: &[u16], k: usize) -> u16
    requires { (k < uses_size) × (memory_size ≤ length mem.now) }
    ensures { result ≡ use_at mem.now k }
{
    mem[USES_BASE + k]
}

pub fn store_use(mem: &mut [u16], k: usize, value: u16)
    requires { (k < uses_size) × (memory_size ≤ length mem.old) }
    ensures { mem.new ≡ set mem.old (uses_base + k) value }
{
    mem[USES_BASE + k] = value;
}
