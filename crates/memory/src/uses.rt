// The rules that use a literal, and what the index says of a rule.
ghost use Rattle.std.specs.Prelude.{◌-◌, ◌*◌, ◌≤◌, ◌<◌, ◌≡◌, length, get_or};
ghost use Rattle.logic.specs.Theory.{head_of, kind_of, is_strict};
ghost use Rattle.table.specs.Format.{theory_in};
ghost use Rattle.table.specs.Tables.{theory_said};
ghost use Rattle.memory.specs.Layout.{field_size, memory_size};
ghost use Rattle.memory.specs.Memory.{view, users, uses_from, Ready};
ghost use Rattle.memory.specs.Api.{UsesAt};

use crate::deciding::is_strict_by;
use crate::fields::{HEAD, USES};
use crate::words::{load, load_use};
use table::accepted::Table;
use table::format::Sizes;

// Where the uses of a literal begin, and where they end. It is no `Range`: `cost`, `add` and the run's loop each take it, and only a `Copy`
// value goes to all three as it is.
#[derive(Clone, Copy)]
pub struct Uses {
    pub first: usize,
    pub end: usize,
}

fn first_use(mem: &[u16], p: u16) -> usize
    requires { (p < field_size) × (memory_size ≤ length mem.now) }
    ensures { result ≡ uses_from (view mem.now) p }
{
    if p == 0 {
        0
    } else {
        load(mem, USES, p as usize - 1) as usize
    }
}

pub fn uses_of(table: Table, mem: &[u16], p: u16) -> Uses
    requires { Ready (theory_said table) mem.now × (p < 2 * table.sizes.atoms) }
    ensures { UsesAt (theory_said table.entry) p result.first result.end }
{
    let first = first_use(mem, p);
    let end = load(mem, USES, p as usize) as usize;
    Uses { first, end }
}

// The rule of the k-th use, which is one of literal p. It and the two below take no `Table`, which would ask for a legal one.
pub fn user_at(table: &[u8], s: Sizes, mem: &[u16], p: u16, uses: Uses, k: usize) -> u16
    requires { Ready (theory_in table.now s) mem.now × (p < 2 * s.atoms) × UsesAt (theory_in table.now s) p uses.first uses.end × (uses.first ≤ k) × (k < uses.end) }
    ensures { result ≡ get_or (users (theory_in table.now s) p) (k - uses.first) 0 }
{
    load_use(mem, k)
}

pub fn head_of(table: &[u8], s: Sizes, mem: &[u16], r: u16) -> u16
    requires { Ready (theory_in table.now s) mem.now × (r < s.rules) × (s.rules ≤ field_size) }
    ensures { result ≡ head_of (theory_in table.now s) r }
{
    load(mem, HEAD, r as usize)
}

pub fn is_strict(table: &[u8], s: Sizes, mem: &[u16], r: u16) -> bool
    requires { Ready (theory_in table.now s) mem.now × (r < s.rules) × (s.rules ≤ field_size) }
    ensures { result ≡ is_strict (kind_of (theory_in table.now s) r) }
{
    is_strict_by(mem, r as usize)
}
