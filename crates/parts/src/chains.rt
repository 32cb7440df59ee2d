// Atoms that rules chain together. Each atom has a parent in its part that is not larger; the smallest of a part is its own.
ghost use Rattle.std.specs.Prelude.{◌<◌};
ghost use Rattle.table.specs.Tables.{theory_said};
ghost use Rattle.parts.specs.Chains.{Falling, Alone, Climbed, Chained, ChainedBy, Flat, Words};

use table::accepted::Table;

// For each atom its parent, by its number: no heap, and the words of the list that is answered are such an array.
#[derive(Drop)]
struct Parents {
    of: [u16; 512],
    ghost falling: { Falling of },
}

impl Parents {
    // Each atom its own parent.
    fn apart() -> Parents
        ensures { Alone result.of }
    {
        let mut of = [0u16; 512];
        for a in 0..512u16 {
            of[usize::from(a)] = a;
        }
        Parents { of }
    }

    // The root of an atom, at the end of the way from parent to parent. Each atom passed has its parent's parent for its parent then, which
    // halves the way.
    fn root_of(&mut self, atom: u16) -> u16
        requires { atom < 512 }
        ensures { Climbed self.old.of atom self.new.of result }
    {
        let mut a = atom;
        // No range has these atoms: each is read from the one before.
        while self.of[usize::from(a)] != a {
            let up = self.of[usize::from(self.of[usize::from(a)])];
            self.of[usize::from(a)] = up;
            a = up;
        }
        a
    }

    // The parts of two atoms become one: the larger root has the smaller for its parent.
    fn chain(&mut self, a: u16, b: u16)
        requires { (a < 512) × (b < 512) }
        ensures { Chained self.old.of a b self.new.of }
    {
        let x = self.root_of(a);
        let y = self.root_of(b);
        if x < y {
            self.of[usize::from(y)] = x;
        } else {
            self.of[usize::from(x)] = y;
        }
    }

    // The atom of an antecedent and that of its rule's head belong to one part.
    fn chain_entries(&mut self, table: Table)
        requires { Alone self.old.of }
        ensures { ChainedBy table.entry.layout.now table.entry.sizes table.entry.sizes.entries self.new.of }
    {
        for i in 0..usize::from(table.sizes.entries) {
            let entry = table.entry(i);
            let rule = table.rule(usize::from(entry.rule));
            self.chain(rule.head.atom(), entry.literal.atom());
        }
    }

    // From the smallest atom on, each has its root for its parent.
    fn flatten(&mut self)
        ensures { Flat self.old.of self.new.of }
    {
        for a in 0..512usize {
            self.of[a] = self.of[usize::from(self.of[a])];
        }
    }
}

// For each atom of a table the smallest atom of its part.
pub fn parts_of(table: Table) -> [u16; 512]
    ensures { Words (theory_said table.entry) result }
{
    let mut parents = Parents::apart();
    parents.chain_entries(table);
    parents.flatten();
    parents.of
}
