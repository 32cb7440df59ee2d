// Document 02, S-9: a search is made. The literals that no set with the search's property has are found one after the other, each by counts, and
// put into a list; what is not in the list is the largest set.
ghost use Rattle.std.specs.Prelude.{◌<◌, ◌≡◌};
ghost use Rattle.logic.specs.Theory.{head_of};
ghost use Rattle.table.specs.Tables.{theory_said};
ghost use Rattle.memory.specs.Founding.{held_in};
ghost use Rattle.searching.specs.Leaving.{founds};

use memory::founding::Search;
use memory::uses::{head_of, user_at, uses_of};
use table::accepted::Table;
use table::format::Sizes;
use values::both;

const LITERALS: usize = 2 * Sizes::MAX_ATOMS as usize;

const RULES: usize = Sizes::MAX_RULES as usize;

// What left in a search, in arrays of its own beside the memory, since it uses no heap.
#[derive(Drop)]
pub struct Outside {
    // by literal: 1 if it left, else 0
    pub gone: [u16; LITERALS],
    // the literals that left, in the first `end` words
    list: [u16; LITERALS],
    end: usize,
    // by rule: how many antecedents it has lost, the virtual one with them
    lost: [u16; RULES],
}

// Whether rule r, which has lost n antecedents, makes its head q leave.
fn is_founding(search: Search, r: u16, q: u16, n: u16) -> bool
    requires { (r < search.table.sizes.rules) × (q ≡ head_of (theory_said search.table) r) }
    ensures { result ≡ founds (theory_said search.entry.table) (held_in search.entry.mem.now) search.entry.i n r }
{
    if n != search.body_size(r) {
        return false;
    }
    let needy = search.is_needy(r);
    both(needy, !search.is_secure(q))
}

impl Outside {
    ghost use Rattle.std.specs.Prelude.{ℕ, ◌+◌, ◌*◌, ◌≤◌, ◌<◌, ◌≡◌, false, get_or, set, take};
    ghost use Rattle.logic.specs.Theory.{head_of};
    ghost use Rattle.table.specs.Tables.{theory_said};
    ghost use Rattle.memory.specs.Memory.{Ready};
    ghost use Rattle.memory.specs.Founding.{held_in};
    ghost use Rattle.searching.specs.Leaving.{Empty, Leaves, founds, Barred, ReachedIn, told_of, Stays};

    // Nothing left yet.
    pub fn nothing() -> Outside
        ensures { Empty result }
    {
        Outside {
            gone: [0u16; LITERALS],
            list: [0u16; LITERALS],
            end: 0,
            lost: [0u16; RULES],
        }
    }

    // Literal q leaves, if the test says so and it did not leave before.
    fn leave_if(&mut self, q: u16, test: bool)
        requires { (q < 1024) × (self.old.end ≤ 1024) × (get_or self.old.gone q 0 ≡ 0 → self.old.end < 1024) }
        ensures leaves { Leaves test q self.old.gone self.old.list self.old.end self.new.gone self.new.list self.new.end }
        ensures lost { self.new.lost ≡ self.old.lost }
    {
        if test && self.gone[q as usize] == 0 {
            self.gone[q as usize] = 1;
            self.list[self.end] = q;
            self.end += 1;
        }
    }

    // Each barred literal leaves.
    fn bar(&mut self, search: Search)
        requires { Empty self.old }
        ensures { Barred search.entry self.new }
    {
        for q in 0..2 * search.table.sizes.atoms {
            let barred = search.is_barred(q);
            self.leave_if(q, barred);
        }
    }

    // Rule r loses an antecedent.
    fn lose(&mut self, search: Search, r: u16)
        requires rule { r < search.table.sizes.rules }
        requires room { (get_or self.old.lost r 0 < 65535) × (self.old.end ≤ 1024) × (get_or self.old.gone (head_of (theory_said search.table) r) 0 ≡ 0 → self.old.end < 1024) }
        ensures lost { self.new.lost ≡ set self.old.lost r (get_or self.old.lost r 0 + 1) }
        ensures leaves { Leaves (founds (theory_said search.entry.table) (held_in search.entry.mem.now) search.entry.i (get_or self.old.lost r 0 + 1) r) (head_of (theory_said search.entry.table) r) self.old.gone self.old.list self.old.end self.new.gone self.new.list self.new.end }
    {
        let n = self.lost[r as usize] + 1;
        self.lost[r as usize] = n;
        let table = search.table;
        let q = head_of(table.layout, table.sizes, search.mem, r);
        let founding = is_founding(search, r, q, n);
        self.leave_if(q, founding);
    }

    // Each rule loses its virtual antecedent.
    fn begin(&mut self, search: Search)
        requires { Barred search self.old }
        ensures { ReachedIn search.entry search.entry.table.sizes.rules (λ _ _. false) self.new }
    {
        for r in 0..search.table.sizes.rules {
            self.lose(search, r);
        }
    }

    // The rules that use the literal at a place of the list lose it.
    fn tell(&mut self, search: Search, next: usize)
        requires { (next < self.old.end) × ReachedIn search search.table.sizes.rules (told_of (take next self.old.list)) self.old }
        ensures { (next < self.new.end) × ReachedIn search.entry search.entry.table.sizes.rules (told_of (take (next + 1) self.new.list)) self.new }
    {
        let table = search.table;
        let p = self.list[next];
        let uses = uses_of(table, search.mem, p);
        for k in uses.first..uses.end {
            let r = user_at(table.layout, table.sizes, search.mem, p, uses, k);
            self.lose(search, r);
        }
    }

    // Search i of a table is made, by what is processed: what has not left at its end is its set. A `while`, since no range has its end: the
    // list grows in the loop.
    pub fn find(&mut self, table: Table, mem: &[u16], i: u16)
        requires { Empty self.old × Ready (theory_said table) mem.now × (i < 2) }
        ensures { Stays (theory_said table.entry) mem.now i self.new.gone }
    {
        let search = Search { table, mem, i };
        self.bar(search);
        self.begin(search);
        let mut next: usize = 0;
        while next < self.end {
            self.tell(search, next);
            next += 1;
        }
    }
}
