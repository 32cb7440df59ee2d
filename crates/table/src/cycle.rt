// Fault 7 of document 01: Kahn's algorithm on the pairs, in local arrays, since no heap is allowed. That the pairs are in order is asked
// for, as within one file a type for it would be a layer more to read. A rule is released once every rule that is stronger than
// it was released; there is a cycle exactly if some rule never is.
ghost use Rattle.std.specs.Prelude.{ℕ, ◌+◌, ◌-◌, ◌≤◌, ◌<◌, ◌*◌, ◌≡◌, false, eqb, length, get_or, take, set};
ghost use Rattle.logic.specs.Tests.{count_below};
ghost use Rattle.table.specs.Format.{pair_at, theory_in};
ghost use Rattle.table.specs.Refusals.{out_of_range, disorder, cycle};
ghost use Rattle.table.specs.Pairs.{PairsInOrder};
ghost use Rattle.table.specs.Release.{Runs, Zeros, Reached, Pushed};

use crate::format::Sizes;
use crate::whole::Layout;

const RULES: usize = Sizes::MAX_RULES as usize;

// A word for each rule.
type RuleWords = [u16; RULES];

// How many pairs name each rule as the weaker.
fn count_stronger(layout: Layout, degree: &mut RuleWords)
    requires { PairsInOrder (theory_in layout.bytes.now layout.sizes) × ((w : ℕ) → w < 1024 → get_or degree.old w 0 ≡ 0) }
    ensures { (w : ℕ) → w < 1024 → get_or degree.new w 0 ≡ count_below layout.entry.sizes.pairs (λ i. eqb (pair_at layout.entry.bytes.now layout.entry.sizes i).weaker w) }
{
    for i in 0..layout.sizes.pairs as usize {
        let p = layout.pair(i);
        degree[p.weaker as usize] += 1;
    }
}

// Where the pairs of each stronger rule begin.
fn find_runs(layout: Layout, first: &mut RuleWords)
    requires { PairsInOrder (theory_in layout.bytes.now layout.sizes) }
    ensures { Runs (theory_in layout.entry.bytes.now layout.entry.sizes) first.new }
{
    for i in (0..layout.sizes.pairs).rev() {
        let p = layout.pair(i as usize);
        first[p.stronger as usize] = i;
    }
}

// The queue with one more rule at its end, if the test says so.
fn push_if(queue: &mut RuleWords, end: usize, rule: u16, test: bool) -> usize
    requires { end < 1024 }
    ensures { Pushed test rule queue.old end queue.new result }
{
    if test {
        queue[end] = rule;
        end + 1
    } else {
        end
    }
}

// The rules that no rule is stronger than.
fn start(n: u16, degree: &RuleWords, queue: &mut RuleWords) -> usize
    requires { n ≤ 1024 }
    ensures { (result ≤ n) × Zeros n degree.now (take result queue.new) }
{
    let mut end: usize = 0;
    for r in 0..n {
        end = push_if(queue, end, r, degree[r as usize] == 0);
    }
    end
}

// A rule waits for one stronger rule less, and is released if it waits for none.
fn lower(w: u16, degree: &mut RuleWords, queue: &mut RuleWords, end: usize) -> usize
    requires { (w < 1024) × (1 ≤ get_or degree.old w 0) × (end < 1024) }
    ensures { (degree.new ≡ set degree.old w (get_or degree.old w 0 - 1)) × Pushed (eqb (get_or degree.old w 0 - 1) 0) w queue.old end queue.new result }
{
    let left = degree[w as usize] - 1;
    degree[w as usize] = left;
    push_if(queue, end, w, left == 0)
}

// The next rule of the queue is taken up: each pair in which it is the stronger counts no more.
fn release(
    layout: Layout,
    first: &RuleWords,
    degree: &mut RuleWords,
    queue: &mut RuleWords,
    next: usize,
    end: usize,
) -> usize
    requires pairs_in_order { PairsInOrder (theory_in layout.bytes.now layout.sizes) × Runs (theory_in layout.bytes.now layout.sizes) first.now × Reached (theory_in layout.bytes.now layout.sizes) next end degree.old queue.old }
    requires within { (next < end) × (end ≤ 1024) }
    ensures { (next < result) × (result ≤ 1024) × Reached (theory_in layout.entry.bytes.now layout.entry.sizes) (next + 1) result degree.new queue.new }
{
    let r = queue[next];
    let mut last = end;
    for i in usize::from(first[usize::from(r)])..layout.sizes.pairs as usize {
        let p = layout.pair(i);
        if p.stronger != r {
            return last;
        }
        last = lower(p.weaker, degree, queue, last);
    }
    last
}

// How many rules are released in all.
fn released(
    layout: Layout,
    first: &RuleWords,
    degree: &mut RuleWords,
    queue: &mut RuleWords,
    start: usize,
) -> usize
    requires pairs_in_order { PairsInOrder (theory_in layout.bytes.now layout.sizes) × Runs (theory_in layout.bytes.now layout.sizes) first.now × Reached (theory_in layout.bytes.now layout.sizes) 0 start degree.old queue.old }
    requires within { start ≤ 1024 }
    ensures { (result ≤ 1024) × Reached (theory_in layout.entry.bytes.now layout.entry.sizes) result result degree.new queue.new }
{
    let mut end = start;
    let mut next: usize = 0;
    // The queue grows while it is passed, so that no `for` has its end.
    while next < end {
        end = release(layout, first, degree, queue, next, end);
        next += 1;
    }
    end
}

// 7: the pairs lead from some rule back to itself. It is not taken into its caller, so that its arrays lie under this test alone.
#[inline(never)]
pub fn has_cycle(layout: Layout) -> bool
    requires { (out_of_range layout.bytes.now layout.sizes ≡ false) × (disorder layout.bytes.now layout.sizes ≡ false) }
    ensures { result ≡ cycle layout.entry.bytes.now layout.entry.sizes }
{
    let rules = layout.sizes.rules;
    let mut degree = [0; RULES];
    let mut first = [0; RULES];
    let mut queue = [0; RULES];
    count_stronger(layout, &mut degree);
    find_runs(layout, &mut first);
    let end = start(rules, &degree, &mut queue);
    let all = released(layout, &first, &mut degree, &mut queue, end);
    all < rules as usize
}
