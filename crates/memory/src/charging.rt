// What a conclusion costs. Document 02, S-4: settling is handed the counts, which `count_pairs` made of the pairs before any rule was
// visited, and no pairs; nothing here has the table or a part of it.
ghost use Rattle.std.specs.Prelude.{◌+◌, ◌≤◌, ◌<◌, ◌≡◌, length};
ghost use Rattle.memory.specs.Layout.{tag_count, field_size, memory_size};
ghost use Rattle.memory.specs.Fields.{naming_f};
ghost use Rattle.memory.specs.Memory.{view};
ghost use Rattle.memory.specs.Api.{UsesIn, cost_in};
ghost use Rattle.memory.specs.Deciding.{charge_by};

use crate::deciding::{decides, is_strict_by};
use crate::fields::NAMING;
use crate::layout::TAGS;
use crate::uses::Uses;
use crate::words::{load, load_use};
use standing::answer::Standing;

// What is charged for rule r where it is decided: 1, and the number of pairs naming it.
fn charge_decided(mem: &[u16], r: usize) -> u32
    requires { (r < field_size) × (memory_size ≤ length mem.now) }
    ensures { (result ≡ 1 + view mem.now naming_f r) × (result ≤ 65536) }
{
    1 + u32::from(load(mem, NAMING, r))
}

// What rule r, which uses a literal, adds to the cost of its tag t.
fn charge(mem: &[u16], r: usize, t: usize) -> u32
    requires { (r < field_size) × (memory_size ≤ length mem.now) × (t < tag_count) }
    ensures { (result ≡ charge_by (view mem.now) t r) × (result ≤ 65536) }
{
    if t < 2 {
        return u32::from(is_strict_by(mem, r));
    }
    if decides(mem, r, t) == Standing::Waiting {
        1
    } else {
        charge_decided(mem, r)
    }
}

// What conclusion x, which is not processed, costs by the uses of its literal.
pub fn cost(mem: &[u16], x: u16, uses: Uses) -> u32
    requires { UsesIn mem.now uses.first uses.end }
    ensures { result ≡ cost_in mem.now x uses.first uses.end }
{
    let t = usize::from(x % TAGS);
    let charges: u32 = (uses.first..uses.end)
        .map(|k| charge(mem, usize::from(load_use(mem, k)), t))
        .sum();
    1 + charges
}
