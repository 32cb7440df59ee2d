// A conclusion is processed: every count that changes grows by one at a time, and then the mark is set.
// A tag is a number, t, and no enum: a conclusion has it as its remainder by four (document 01), and a field by it stands at a base and t.
ghost use Rattle.std.specs.Prelude.{◌+◌, ◌*◌, ◌/◌, ◌≤◌, ◌<◌, ◌≡◌, true, false, T, ltb, length};
ghost use Rattle.logic.specs.Tests.{◌and◌, weigh};
ghost use Rattle.logic.specs.Theory.{can_support, kind_of};
ghost use Rattle.logic.specs.System.{Coherent};
ghost use Rattle.table.specs.Format.{theory_in};
ghost use Rattle.table.specs.Tables.{theory_said};
ghost use Rattle.memory.specs.Layout.{tag_count, field_count, field_size, memory_size};
ghost use Rattle.memory.specs.Fields.{has, size_f, head_f, kind_f, rivals_by, rules_by, by_rival, by_itself};
ghost use Rattle.memory.specs.Memory.{view, held_of, written_of, NeverBothAt, Invariant, Ready};
ghost use Rattle.memory.specs.Api.{adds, UsesAt, Lacks, Visited, Added};
ghost use Rattle.memory.specs.Visits.{WellFormed, Raised, threshold, just_reached, reached, decided_for, notifies, notified_below, is_free, just_reached_by_rival, Open, Unchanged, Decided, CountedAtHead, Notified, Spread};

use crate::deciding::{can_support_by, decides, is_strict_by, standing};
use crate::fields::{
    BEATEN, BY_ITSELF, BY_RIVAL, FIRST, HAS, HEAD, LOST, RIVALS, RIVALS_BY, RULES_BY, SIZE,
};
use crate::layout::TAGS;
use crate::uses::Uses;
use crate::words::{bump, load, load_use, store};
use standing::answer::Standing;
use table::accepted::Table;
use table::format::{Literal, Sizes, read_pair};

// One more, if the test says so.
fn bump_if(mem: &mut [u16], field: usize, i: usize, test: bool)
    requires { (field < field_count) × (i < field_size) × (memory_size ≤ length mem.old) × (view mem.old field i < 65535) }
    ensures { Raised field i (weigh test 1) mem.old mem.new }
{
    if test {
        bump(mem, field, i);
    }
}

// Whether every rival of rule r is out (t = 2), or none fires (t = 3).
#[tactic(auto, unfolding(crate::specs::Visits::is_free))]
fn is_free(mem: &[u16], r: usize, t: usize) -> bool
    requires { (r < field_size) × (memory_size ≤ length mem.now) }
    ensures { result ≡ is_free (view mem.now) t r }
{
    if t == 2 {
        load(mem, LOST, r) == load(mem, RIVALS, r)
    } else {
        load(mem, BEATEN, r) == 0
    }
}

// Whether rule r, of which one rival more fires, is countered by it: it is the first that does, and the rule is not out.
fn newly_countered(mem: &[u16], r: usize) -> bool
    requires { (r < field_size) × (memory_size ≤ length mem.now) × NeverBothAt (view mem.now) r }
    ensures { result ≡ just_reached_by_rival (view mem.now) 2 r }
{
    if load(mem, BEATEN, r) != 1 {
        return false;
    }
    standing(mem, r, 0, 0) != Standing::Out
}

// Whether rule r, of which one rival more is out, is unopposed by it: it is the last that was not, and the rule fires.
fn newly_unopposed(mem: &[u16], r: usize) -> bool
    requires { (r < field_size) × (memory_size ≤ length mem.now) }
    ensures { result ≡ just_reached_by_rival (view mem.now) 3 r }
{
    if load(mem, LOST, r) != load(mem, RIVALS, r) {
        return false;
    }
    standing(mem, r, 0, 0) == Standing::Firing
}

fn reached_by_rival(mem: &[u16], r: usize, t: usize) -> bool
    requires { (r < field_size) × (2 ≤ t) × (t < tag_count) × (memory_size ≤ length mem.now) × NeverBothAt (view mem.now) r }
    ensures { result ≡ just_reached_by_rival (view mem.now) t r }
{
    if t == 2 {
        newly_countered(mem, r)
    } else {
        newly_unopposed(mem, r)
    }
}

// Rule x is notified that a rule over it fires (t = 2), or is out (t = 3). That rule is a rival if q, the complement of its head, is
// the head of x.
fn notify(mem: &mut [u16], q: usize, x: usize, t: usize)
    requires x_lt_field_size { (x < field_size) × (2 ≤ t) × (t < tag_count) × (memory_size ≤ length mem.old) × NeverBothAt (view mem.old) x }
    requires x_bound { (view mem.old (rivals_by t) x < 65535) × (view mem.old head_f x < field_size) × (view mem.old (by_rival t) (view mem.old head_f x) < 65535) }
    ensures { Notified q x t mem.old mem.new }
{
    let head = usize::from(load(mem, HEAD, x));
    if head != q {
        return;
    }
    bump(mem, RIVALS_BY + t, x);
    let turns = reached_by_rival(mem, x, t);
    bump_if(mem, BY_RIVAL + t, head, turns);
}

// Every rule that rule r is over is notified. This and the two visits below ask less than a legal table (`WellFormed`), so they take no `Table`.
fn walk(table: &[u8], s: Sizes, mem: &mut [u16], r: usize, t: usize)
    requires well_formed { WellFormed (theory_in table.now s) × (r < s.rules) × (2 ≤ t) × (t < tag_count) × T (can_support (kind_of (theory_in table.now s) r)) }
    requires reached { T (reached (view mem.old) t r) × Open (theory_in table.now s) mem.old (decided_for (view mem.old)) (notified_below (theory_in table.now s) (view mem.old) t r 0) }
    requires r_lt_field_size { (r < field_size) × (memory_size ≤ length mem.old) }
    ensures { Unchanged mem.old mem.new × Open (theory_in table.now s) mem.new (decided_for (view mem.new)) (notifies (theory_in table.now s) (view mem.new)) }
{
    let head = Literal(load(mem, HEAD, r));
    let opposite = head.complement();
    let q = usize::from(opposite.0);
    let first = usize::from(load(mem, FIRST, r));
    for i in first..usize::from(s.pairs) {
        let p = read_pair(table, s, i);
        if usize::from(p.stronger) != r {
            return;
        }
        notify(mem, q, usize::from(p.weaker), t);
    }
}

// The number of antecedents with tag t, +Δ or −Δ, at which a rule is decided.
#[tactic(auto, unfolding(crate::specs::Visits::threshold))]
fn threshold(t: usize, size: u16) -> u16
    ensures { result ≡ threshold t size }
{
    if t % 2 == 0 { size } else { 1 }
}

// One antecedent more of rule r has tag t, +Δ or −Δ. Whether it decides the rule: all antecedents have +Δ now, or one has −Δ.
fn reaches(mem: &mut [u16], r: usize, t: usize) -> bool
    requires { (r < field_size) × (t < 2) × (memory_size ≤ length mem.old) × (view mem.old (has t) r < view mem.old size_f r) }
    ensures { Raised (has t) r 1 mem.old mem.new × (result ≡ just_reached (view mem.new) t r) }
{
    let size = load(mem, SIZE, r);
    bump(mem, HAS + t, r);
    load(mem, HAS + t, r) == threshold(t, size)
}

// A visit with tag +Δ or −Δ.
pub fn visit_definite(table: &[u8], s: Sizes, mem: &mut [u16], r: usize, t: usize)
    requires well_formed { WellFormed (theory_in table.now s) × Invariant (theory_in table.now s) mem.old × (r < s.rules) × (t < 2) × Lacks (view mem.old) t r }
    requires r_lt_field_size { (r < field_size) × (memory_size ≤ length mem.old) }
    ensures { Visited (theory_in table.now s) t r mem.old mem.new }
{
    if !reaches(mem, r, t) {
        return;
    }
    let head = usize::from(load(mem, HEAD, r));
    let strict = is_strict_by(mem, r);
    bump_if(mem, RULES_BY + t, head, strict);
}

// Rule r, which a visit with tag +∂ or −∂ has decided, is counted at its head. Whether it can support, and so has rules to notify.
fn count_decided(mem: &mut [u16], r: usize, t: usize) -> bool
    requires r_lt_field_size { (r < field_size) × (2 ≤ t) × (t < tag_count) × (memory_size ≤ length mem.old) × (view mem.old head_f r < field_size) }
    requires r_bound { (view mem.old (by_itself t) (view mem.old head_f r) < 65535) × (view mem.old (rules_by t) (view mem.old head_f r) < 65535) }
    ensures { CountedAtHead t r mem.old mem.new × (result ≡ ltb (view mem.old kind_f r) 2) }
{
    let head = usize::from(load(mem, HEAD, r));
    let supports = can_support_by(mem, r);
    let free = is_free(mem, r, t);
    bump_if(mem, BY_ITSELF - t, head, free);
    bump_if(mem, RULES_BY + t, head, supports);
    supports
}

// A visit with tag +∂ or −∂ has decided rule r: it is counted, without its pairs (document 02, S-4), and then a supporter notifies the
// rules that it is over. Of two calls of `walk` the compiler makes a function of it, and what most visits do stays small.
pub fn propagate(table: &[u8], s: Sizes, mem: &mut [u16], r: usize, t: usize)
    requires well_formed { WellFormed (theory_in table.now s) × Decided (theory_in table.now s) t r mem.old × (r < s.rules) × (2 ≤ t) × (t < tag_count) }
    requires r_lt_field_size { (r < field_size) × (memory_size ≤ length mem.old) }
    ensures { Unchanged mem.old mem.new × Invariant (theory_in table.now s) mem.new }
{
    if !count_decided(mem, r, t) {
        return;
    }
    if t == 2 {
        walk(table, s, mem, r, 2);
    } else {
        walk(table, s, mem, r, 3);
    }
}

// One antecedent more of rule r has tag t.
fn visit(table: Table, mem: &mut [u16], r: usize, t: usize)
    requires { Invariant (theory_said table) mem.old × (r < table.sizes.rules) × (t < tag_count) × Lacks (view mem.old) t r }
    ensures { Visited (theory_said table.entry) t r mem.old mem.new }
{
    if t < 2 {
        visit_definite(table.layout, table.sizes, mem, r, t);
        return;
    }
    let next = decides(mem, r, t);
    bump(mem, HAS + t, r);
    match next {
        Standing::Firing => propagate(table.layout, table.sizes, mem, r, 2),
        Standing::Out => propagate(table.layout, table.sizes, mem, r, 3),
        Standing::Waiting => {}
    }
}

// Every rule with literal p in its body is visited with tag t.
fn visit_uses(table: Table, mem: &mut [u16], p: u16, t: u16, uses: Uses)
    requires ready { Ready (theory_said table) mem.old × (p < 2 * table.sizes.atoms) × (t < tag_count) × (held_of mem.old (tag_count * p + t) ≡ false) × Coherent (adds (held_of mem.old) (tag_count * p + t)) }
    requires p_lt_field_size { (p < field_size) × (memory_size ≤ length mem.old) × UsesAt (theory_said table) p uses.first uses.end }
    ensures { Spread (theory_said table.entry) p t mem.old mem.new }
{
    for k in uses.first..uses.end {
        let r = load_use(mem, k);
        visit(table, mem, usize::from(r), usize::from(t));
    }
}

// Conclusion x is processed.
pub fn add(table: Table, mem: &mut [u16], x: u16, uses: Uses)
    requires ready { Ready (theory_said table) mem.old × (x < tag_count * (2 * table.sizes.atoms)) × (written_of mem.old x ≡ true) × (held_of mem.old x ≡ false) × Coherent (adds (held_of mem.old) x) }
    requires uses_at { UsesAt (theory_said table) (x / tag_count) uses.first uses.end }
    ensures { Added (theory_said table.entry) x mem.old mem.new }
{
    let p = x / TAGS;
    let t = x % TAGS;
    visit_uses(table, mem, p, t, uses);
    store(mem, usize::from(t), usize::from(p), 2);
}
