// What of a table belongs to the part of one atom, section by section, and how its rules are numbered anew.
ghost use Rattle.std.specs.Prelude.{◌+◌, ◌*◌, ◌≤◌, ◌<◌, ◌≡◌, map, length};
ghost use Rattle.logic.specs.Tests.{count_below};
ghost use Rattle.table.specs.Tables.{theory_said};
ghost use Rattle.files.specs.Contents.{sizes_for, rows_of};
ghost use Rattle.writing.specs.Columns.{word_in, with_words};
ghost use Rattle.parting.specs.Parting.{literal_in, rule_in, number_in, part_of};
ghost use Rattle.parts.specs.Chains.{Words};
ghost use Rattle.parts.specs.Kept.{content_said, size_of, kept_in, row_by, rows_in, Numbered};

use table::accepted::Table;
use table::format::{Literal, Sizes};
use values::both;
use writing::columns::{Side, left_of, put_if, word_in};

// The four sections of a table. What differs between them is one `match` for each definition in specs/Kept.antt, which is by the same cases:
// closures in its place would have to state in each contract what they return of each section.
#[derive(Clone, Copy)]
pub enum Section {
    Facts,
    Rules,
    Entries,
    Pairs,
}

// How many rows a section has.
#[tactic(auto, unfolding(crate::specs::Kept::size_of))]
fn size_of(s: Sizes, section: Section) -> usize
    ensures { result ≡ size_of s section }
{
    usize::from(match section {
        Section::Facts => s.facts,
        Section::Rules => s.rules,
        Section::Entries => s.entries,
        Section::Pairs => s.pairs,
    })
}

// The part of an atom of a table, by the smallest atom of each atom's part.
#[derive(Clone, Copy)]
pub struct AtomPart<'a> {
    pub table: Table<'a>,
    pub words: &'a [u16],
    pub atom: usize,
    pub ghost smallest: { Words (theory_said table) words.now },
    pub ghost below: { atom < table.sizes.atoms },
}

impl<'a> AtomPart<'a> {
    // A literal is the part's if its atom has the word that the part's atom has.
    #[tactic(auto, using(crate::proofs::Sections::literal_kept, table::proofs::Legal::limited))]
    fn has_literal(&self, q: Literal) -> bool
        requires { q.0 < 2 * self.now.table.sizes.atoms }
        ensures { result ≡ literal_in (content_said self.now.table) self.now.atom q.0 }
    {
        self.words[usize::from(q.atom())] == self.words[self.atom]
    }

    // A rule is the part's if its head is.
    #[tactic(auto, using(crate::proofs::Sections::head_small, crate::proofs::Sections::rule_kept))]
    fn has_rule(&self, rule: usize) -> bool
        requires { rule < self.now.table.sizes.rules }
        ensures { result ≡ rule_in (content_said self.now.table) self.now.atom rule }
    {
        self.has_literal(self.table.rule(rule).head)
    }

    // Whether a row of a section is the part's. It is taken into its callers, where the section is known before the loop.
    #[tactic(auto, using(crate::proofs::Sections::rows_kept))]
    #[inline(always)]
    fn keeps(&self, section: Section, i: usize) -> bool
        requires { i < size_of self.now.table.sizes section }
        ensures { result ≡ kept_in (content_said self.now.table) self.now.atom section i }
    {
        match section {
            Section::Facts => self.has_literal(self.table.fact(i)),
            Section::Rules => self.has_rule(i),
            Section::Entries => self.has_rule(usize::from(self.table.entry(i).rule)),
            Section::Pairs => {
                let pair = self.table.pair(i);
                both(
                    self.has_rule(usize::from(pair.stronger)),
                    self.has_rule(usize::from(pair.weaker)),
                )
            }
        }
    }

    // How many rows of a section are the part's.
    #[tactic(auto, using(crate::proofs::Rows::counting), unfolding(logic::specs::Tests::total))]
    fn count_kept(&self, section: Section) -> u16
        ensures { result ≡ count_below (size_of self.now.table.sizes section) (kept_in (content_said self.now.table) self.now.atom section) }
    {
        let mut n: u16 = 0;
        for i in 0..size_of(self.table.sizes, section) {
            n += u16::from(self.keeps(section, i));
        }
        n
    }

    // The sizes of the part's table.
    pub fn sizes(&self) -> Sizes
        ensures { result ≡ sizes_for (part_of (content_said self.now.table) self.now.atom) }
    {
        Sizes {
            atoms: self.table.sizes.atoms,
            facts: self.count_kept(Section::Facts),
            rules: self.count_kept(Section::Rules),
            entries: self.count_kept(Section::Entries),
            pairs: self.count_kept(Section::Pairs),
        }
    }

    // For each rule how many of the part's rules stand before it.
    #[tactic(auto, using(crate::proofs::Rows::counting, table::proofs::Legal::limited), unfolding(logic::specs::Tests::total))]
    pub fn numbers(&self) -> [u16; 1024]
        ensures { Numbered (content_said self.now.table) self.now.atom result }
    {
        let mut numbers = [0u16; 1024];
        let mut n: u16 = 0;
        for rule in 0..usize::from(self.table.sizes.rules) {
            numbers[rule] = n;
            n += u16::from(self.has_rule(rule));
        }
        numbers
    }
}

// The part with its rules numbered anew.
#[derive(Clone, Copy)]
pub struct Renumbered<'a> {
    pub part: AtomPart<'a>,
    pub numbers: &'a [u16],
    pub ghost numbered: { Numbered (content_said part.table) part.atom numbers.now },
}

impl<'a> Renumbered<'a> {
    // The new number of a rule.
    #[tactic(auto, using(crate::proofs::Sections::number_read, table::proofs::Legal::limited))]
    fn number(&self, rule: u16) -> u16
        requires { rule < self.now.part.table.sizes.rules }
        ensures { result ≡ number_in (content_said self.now.part.table) self.now.part.atom rule }
    {
        self.numbers[usize::from(rule)]
    }

    // The word of a row on one side.
    #[tactic(auto, using(crate::proofs::Sections::row_words))]
    fn word(&self, side: Side, section: Section, i: usize) -> u16
        requires { i < size_of self.now.part.table.sizes section }
        ensures { result ≡ word_in side (row_by (content_said self.now.part.table) (number_in (content_said self.now.part.table) self.now.part.atom) section i) }
    {
        match section {
            Section::Facts => word_in(side, 0, self.part.table.fact(i).0),
            Section::Rules => {
                let rule = self.part.table.rule(i);
                word_in(side, left_of(rule), rule.head.0)
            }
            Section::Entries => {
                let entry = self.part.table.entry(i);
                word_in(side, self.number(entry.rule), entry.literal.0)
            }
            Section::Pairs => {
                let pair = self.part.table.pair(i);
                word_in(side, self.number(pair.stronger), self.number(pair.weaker))
            }
        }
    }

    // The part's rows of a section on one side; and the place after them.
    fn write_kept(&self, out: &mut [u8], at: usize, side: Side, section: Section) -> usize
        requires { at ≤ 65536 }
        ensures { (result ≡ at + 2 * length (rows_in (content_said self.now.part.table) self.now.part.atom section)) × (out.new ≡ with_words out.old at (map (word_in side) (rows_in (content_said self.now.part.table) self.now.part.atom section))) }
    {
        let mut place = at;
        for i in 0..size_of(self.part.table.sizes, section) {
            let word = self.word(side, section, i);
            place = put_if(out, place, word, self.part.keeps(section, i));
        }
        place
    }

    // One array of the part's table. It is taken into its caller, where the part's fields are locals: by the reference each is read anew for each row.
    #[inline(always)]
    pub fn write_side(&self, out: &mut [u8], at: usize, side: Side)
        requires { at ≤ 40000 }
        ensures { out.new ≡ with_words out.old at (map (word_in side) (rows_of (part_of (content_said self.now.part.table) self.now.part.atom))) }
    {
        let at = self.write_kept(out, at, side, Section::Facts);
        let at = self.write_kept(out, at, side, Section::Rules);
        let at = self.write_kept(out, at, side, Section::Entries);
        self.write_kept(out, at, side, Section::Pairs);
    }
}
