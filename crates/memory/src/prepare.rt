// The memory of a table at its start, and the memory cleared.
ghost use Rattle.std.specs.Prelude.{◌+◌, ◌≤◌, ◌<◌, ◌≡◌, ◌++◌, length, drop, replicate};
ghost use Rattle.table.specs.Tables.{theory_said};
ghost use Rattle.memory.specs.Layout.{memory_size};
ghost use Rattle.memory.specs.Api.{Prepared};
ghost use Rattle.memory.specs.Indexing.{Low, Started};

use crate::counting::{add_entries, add_rules, count_pairs, mark_facts, mark_firsts};
use crate::deciding::standing;
use crate::fields::HAS_PROVED;
use crate::layout::MEMORY_SIZE;
use crate::sorting::{begin_uses, place_uses};
use crate::visit::{propagate, visit_definite};
use crate::words::bump;
use standing::answer::Standing;
use table::accepted::Table;

// The words of the memory set to 0.
pub fn clear(mem: &mut [u16])
    requires { memory_size ≤ length mem.old }
    ensures { mem.new ≡ replicate memory_size 0 ++ drop memory_size mem.old }
{
    mem[..MEMORY_SIZE].fill(0);
}

// What is written once, in a memory of zeros else.
fn fill(table: Table, mem: &mut [u16])
    requires { Low mem.old 0 }
    ensures { Started (theory_said table.entry) 0 mem.old mem.new }
{
    add_rules(table, mem);
    mark_facts(table, mem);
    add_entries(table, mem);
    count_pairs(table, mem);
    mark_firsts(table, mem);
    begin_uses(table, mem);
    place_uses(table, mem);
}

// Rule r is visited for its virtual antecedent, with +Δ and +∂. The second visit stands here in its parts, and in `visit` too: where one
// function makes both visits, the compiler no longer keeps `walk` apart. And the rule waits before it: how it stands after it is enough.
fn start_rule(table: Table, mem: &mut [u16], r: usize)
    requires { Started (theory_said table) r mem.old mem.old × (r < table.sizes.rules) }
    ensures { Started (theory_said table.entry) (r + 1) mem.old mem.new }
{
    visit_definite(table.layout, table.sizes, mem, r, 0);
    bump(mem, HAS_PROVED, r);
    if standing(mem, r, 0, 0) == Standing::Firing {
        propagate(table.layout, table.sizes, mem, r, 2);
    }
}

// Every rule is visited for its virtual antecedent.
fn start(table: Table, mem: &mut [u16])
    requires { Started (theory_said table) 0 mem.old mem.old }
    ensures { Started (theory_said table.entry) table.entry.sizes.rules mem.old mem.new }
{
    for r in 0..table.sizes.rules {
        start_rule(table, mem, usize::from(r));
    }
}

// Nothing processed, nothing written; whatever the words held.
pub fn prepare(table: Table, mem: &mut [u16])
    requires { memory_size ≤ length mem.old }
    ensures { Prepared (theory_said table.entry) mem.old mem.new }
{
    clear(mem);
    fill(table, mem);
    start(table, mem);
}
