// What follows from what is processed.
ghost use Rattle.std.specs.Prelude.{◌*◌, ◌≤◌, ◌<◌, ◌≡◌, length};
ghost use Rattle.logic.specs.Theory.{complement};
ghost use Rattle.logic.specs.Plain.{plain_system};
ghost use Rattle.table.specs.Tables.{theory_said};
ghost use Rattle.memory.specs.Layout.{tag_count, field_size, memory_size};
ghost use Rattle.memory.specs.Memory.{view, held_of, Ready};
ghost use Rattle.memory.specs.Deciding.{processed, definitely_by, not_definitely_by, defeasibly_by, not_defeasibly_by};

use crate::fields::{
    COUNTERED, FACT, FIRING, HEADED, OUT, PROVED, REFUTED, STRICT, SUPPORT, UNOPPOSED,
};
use crate::layout::TAGS;
use crate::words::load;
use table::accepted::Table;
use table::format::Literal;
use values::{both, either};

// Whether tag t of the literal at an index is processed.
pub(crate) fn is_processed(mem: &[u16], i: usize, t: usize) -> bool
    requires { (i < field_size) × (t < tag_count) × (memory_size ≤ length mem.now) }
    ensures { result ≡ processed (view mem.now) i t }
{
    load(mem, t, i) == 2
}

// +Δ
fn definitely(mem: &[u16], i: usize) -> bool
    requires { (i < field_size) × (memory_size ≤ length mem.now) }
    ensures { result ≡ definitely_by (view mem.now) i }
{
    either(0 < load(mem, FACT, i), 0 < load(mem, PROVED, i))
}

// −Δ
fn not_definitely(mem: &[u16], i: usize) -> bool
    requires { (i < field_size) × (memory_size ≤ length mem.now) }
    ensures { result ≡ not_definitely_by (view mem.now) i }
{
    let out = load(mem, REFUTED, i) == load(mem, STRICT, i);
    both(load(mem, FACT, i) == 0, out)
}

// The complement of literal q, as an index.
pub(crate) fn other(q: u16) -> usize
    ensures { result ≡ complement q }
{
    let n = Literal(q).complement();
    usize::from(n.0)
}

// +∂
fn defeasibly(mem: &[u16], q: u16) -> bool
    requires { (q < field_size) × (memory_size ≤ length mem.now) }
    ensures { result ≡ defeasibly_by (view mem.now) q }
{
    let i = q as usize;
    if is_processed(mem, i, 0) {
        return true;
    }
    if load(mem, FIRING, i) == 0 {
        return false;
    }
    let n = other(q);
    if !is_processed(mem, n, 1) {
        return false;
    }
    load(mem, COUNTERED, n) == load(mem, HEADED, n)
}

// −∂
fn not_defeasibly(mem: &[u16], q: u16) -> bool
    requires { (q < field_size) × (memory_size ≤ length mem.now) }
    ensures { result ≡ not_defeasibly_by (view mem.now) q }
{
    let i = q as usize;
    if !is_processed(mem, i, 1) {
        return false;
    }
    if load(mem, OUT, i) == load(mem, SUPPORT, i) {
        return true;
    }
    let n = other(q);
    if is_processed(mem, n, 0) {
        return true;
    }
    0 < load(mem, UNOPPOSED, n)
}

// Whether a conclusion follows: the remainder by four picks the inference rule.
pub fn follows(table: Table, mem: &[u16], x: u16) -> bool
    requires { Ready (theory_said table) mem.now × (x < tag_count * (2 * table.sizes.atoms)) }
    ensures { result ≡ (plain_system (theory_said table.entry)).infers (held_of mem.now) x }
{
    let q = x / TAGS;
    let t = x % TAGS;
    match t {
        0 => definitely(mem, q as usize),
        1 => not_definitely(mem, q as usize),
        2 => defeasibly(mem, q),
        _ => not_defeasibly(mem, q),
    }
}
