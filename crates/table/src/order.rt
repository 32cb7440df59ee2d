// Fault 6 of document 01: facts, entries or pairs that do not rise strictly.
ghost use Rattle.std.specs.Prelude.{◌+◌, ◌*◌, ◌≤◌, ◌<◌, ◌≡◌, false, length};
ghost use Rattle.table.specs.Format.{span_of};
ghost use Rattle.table.specs.Refusals.{bad_fact, section_from, section_size, disorder};
ghost use Rattle.table.specs.Keys.{Key};

use crate::format::{Sizes, word_within};
use crate::whole::Layout;

// The ordered sections: 0 the facts, 1 the entries, 2 the pairs. They are numbers, as in the definition (`disorder`).
#[tactic(auto, unfolding(crate::specs::Refusals::section_from))]
fn section_from(s: Sizes, k: u8) -> usize
    ensures { (result ≡ section_from s k) × (result ≤ 196605) }
{
    match k {
        0 => 0,
        1 => s.facts as usize + s.rules as usize,
        _ => s.facts as usize + s.rules as usize + s.entries as usize,
    }
}

#[tactic(auto, unfolding(crate::specs::Refusals::section_size))]
fn section_size(s: Sizes, k: u8) -> u16
    ensures { result ≡ section_size s k }
{
    match k {
        0 => s.facts,
        1 => s.entries,
        _ => s.pairs,
    }
}

// The order of an entry, by its left word, then its right one. A fact's left word is 0.
fn key(layout: &[u8], left: usize, right: usize, i: usize) -> u32
    requires { (2 * (left + i) + 2 ≤ length layout.now) × (2 * (right + i) + 2 ≤ length layout.now) × (left ≤ 196610) × (right ≤ 458750) × (i ≤ 65535) }
    ensures { Key layout.now left right i result }
{
    let low = word_within(layout, right + i);
    65536 * (word_within(layout, left + i) as u32) + low as u32
}

// The key of a section's first entry; of a section without one any number, since the loop that takes it has no turn then.
fn first_key(layout: &[u8], left: usize, right: usize, n: usize) -> u32
    requires { (2 * (left + n) ≤ length layout.now) × (2 * (right + n) ≤ length layout.now) × (left ≤ 196610) × (right ≤ 458750) }
    ensures { 0 < n → Key layout.now left right 0 result }
{
    if n == 0 {
        0
    } else {
        key(layout, left, right, 0)
    }
}

// 6: the first entry out of order ends the whole inspection. Kinds are ruled out before.
pub fn unsorted(layout: Layout) -> bool
    requires { bad_fact layout.bytes.now layout.sizes ≡ false }
    ensures { result ≡ disorder layout.entry.bytes.now layout.entry.sizes }
{
    let s = layout.sizes;
    let span = s.span();
    let mut found = false;
    'inspection: for k in 0..3u8 {
        let n = section_size(s, k) as usize;
        let left = 5 + section_from(s, k);
        let right = left + span;
        let mut last = first_key(layout.bytes, left, right, n);
        for i in 1..n {
            let next = key(layout.bytes, left, right, i);
            if next <= last {
                found = true;
                break 'inspection;
            }
            last = next;
        }
    }
    found
}
