// Document 01, The table, and document 02, S-5: literals, rules, sizes, and what stands at each place of a file's layout (edition.rt).
// Every function is total: a reader gives what its definition in specs/Format.antt says for every layout, sizes and index. Casts by `as`
// stay in this crate: the check sees through one, where a call would be a fact more.
ghost use Rattle.std.specs.Prelude.{◌+◌, ◌*◌, ◌≤◌, ◌<◌, ◌≡◌, cond, ltb, length};
ghost use Rattle.logic.specs.Theory.{complement, atom};
ghost use Rattle.table.specs.Format.{word, sizes_of, span_of, left, right, left_in, right_in, kind_of, kind_number, origin_of, origin_number, fact_at, rule_at, entry_at, pair_at};

// A literal: 2a says that atom a holds, 2a + 1 that it does not.
#[derive(Clone, Copy, PartialEq, Eq)]
pub struct Literal(pub u16);

impl Literal {
    // The literal with its lowest bit flipped.
    pub fn complement(self) -> Literal
        ensures { result.0 ≡ complement self.0 }
    {
        let q = self.0;
        Literal(q / 2 * 2 + (1 - q % 2))
    }

    pub fn atom(self) -> u16
        ensures { result ≡ atom self.0 }
    {
        self.0 / 2
    }
}

#[derive(Clone, Copy, PartialEq, Eq)]
pub enum Kind {
    Strict,
    Defeasible,
    Defeater,
}

// The number that document 01 gives it.
impl From<Kind> for u16 {
    ghost from_gives = { λ kind n. n ≡ kind_number kind };

    fn from(kind: Kind) -> u16 {
        match kind {
            Kind::Strict => 0,
            Kind::Defeasible => 1,
            Kind::Defeater => 2,
        }
    }
}

// Whose rule it is.
#[derive(Clone, Copy, PartialEq, Eq)]
pub enum Origin {
    // 0
    None,
    // 1
    House,
    // 2
    Tour,
    // 3
    Console,
}

// The number that document 02 gives it.
impl From<Origin> for u16 {
    ghost from_gives = { λ origin n. n ≡ origin_number origin };

    fn from(origin: Origin) -> u16 {
        match origin {
            Origin::None => 0,
            Origin::House => 1,
            Origin::Tour => 2,
            Origin::Console => 3,
        }
    }
}

// A rule's kind, origin and head. Its body is apart (body.rt).
#[derive(Clone, Copy)]
pub struct Rule {
    pub kind: Kind,
    pub origin: Origin,
    pub head: Literal,
}

// A pair: rule `stronger` over rule `weaker`.
#[derive(Clone, Copy)]
pub struct Pair {
    pub stronger: u16,
    pub weaker: u16,
}

// An antecedent entry: `literal` stands in the body of rule `rule`.
#[derive(Clone, Copy)]
pub struct Entry {
    pub rule: u16,
    pub literal: Literal,
}

// The five sizes A, F, N, B, P.
#[derive(Clone, Copy)]
pub struct Sizes {
    pub atoms: u16,
    pub facts: u16,
    pub rules: u16,
    pub entries: u16,
    pub pairs: u16,
}

impl Sizes {
    pub const MAX_ATOMS: u16 = 512;

    pub const MAX_FACTS: u16 = 1024;

    pub const MAX_RULES: u16 = 1024;

    pub const MAX_ENTRIES: u16 = 4096;

    pub const MAX_PAIRS: u16 = 2048;

    // The bytes of the longest table.
    pub const MAX_BYTES: usize = 10
        + 4 * (Sizes::MAX_FACTS as usize
            + Sizes::MAX_RULES as usize
            + Sizes::MAX_ENTRIES as usize
            + Sizes::MAX_PAIRS as usize);

    // T = F + N + B + P, the length of each of the two arrays.
    pub fn span(self) -> usize
        ensures { result ≡ span_of self }
    {
        self.facts as usize + self.rules as usize + self.entries as usize + self.pairs as usize
    }
}

// The 16-bit word at an index that is within the layout.
pub(crate) fn word_within(layout: &[u8], i: usize) -> u16
    requires { 2 * i + 2 ≤ length layout.now }
    ensures { result ≡ word layout.now i }
{
    u16::from_le_bytes([layout[2 * i], layout[2 * i + 1]])
}

// The 16-bit word at an index, 0 past the end.
pub(crate) fn word(layout: &[u8], i: usize) -> u16
    ensures { result ≡ word layout.now i }
{
    if i < layout.len() / 2 {
        word_within(layout, i)
    } else {
        0
    }
}

// The five words that come first.
pub fn read_sizes(layout: &[u8]) -> Sizes
    ensures { result ≡ sizes_of layout.now }
{
    Sizes {
        atoms: word(layout, 0),
        facts: word(layout, 1),
        rules: word(layout, 2),
        entries: word(layout, 3),
        pairs: word(layout, 4),
    }
}

// The i-th of the n words from a place on of the array that begins at word `base`, 0 from the n-th on.
fn section_word(layout: &[u8], base: usize, from: usize, n: u16, i: usize) -> u16
    requires { (base ≤ 262145) × (from ≤ 262140) }
    ensures { result ≡ cond (ltb i n) (word layout.now (base + (from + i))) 0 }
{
    if i < n as usize {
        word(layout, base + (from + i))
    } else {
        0
    }
}

// The readers. Any bytes and any sizes serve, so that the two stay apart here; those of an accepted table are one value (accepted.rt).

// The i-th fact.
pub fn read_fact(layout: &[u8], s: Sizes, i: usize) -> Literal
    ensures { result ≡ fact_at layout.now s i }
{
    let right = 5 + s.span();
    Literal(section_word(layout, right, 0, s.facts, i))
}

// A kind, and an origin, by its number. They are total, as their definitions are, so that neither is a `From`, which would say that every
// number is a kind's.
#[tactic(auto, unfolding(crate::specs::Format::kind_of))]
fn kind_of(n: u16) -> Kind
    ensures { result ≡ kind_of n }
{
    match n {
        0 => Kind::Strict,
        1 => Kind::Defeasible,
        _ => Kind::Defeater,
    }
}

#[tactic(auto, unfolding(crate::specs::Format::origin_of))]
fn origin_of(n: u16) -> Origin
    ensures { result ≡ origin_of n }
{
    match n {
        0 => Origin::None,
        1 => Origin::House,
        2 => Origin::Tour,
        _ => Origin::Console,
    }
}

// The words of both arrays at one place.
#[derive(Clone, Copy)]
pub(crate) struct Words {
    pub left: u16,
    pub right: u16,
}

// At place j of a layout that has the bytes its sizes say.
pub(crate) fn words_within(layout: &[u8], s: Sizes, j: usize) -> Words
    requires { (j < span_of s) × (10 + 4 * span_of s ≤ length layout.now) }
    ensures { (result.left ≡ left layout.now j) × (result.right ≡ right layout.now s j) }
{
    let span = s.span();
    let left = word_within(layout, 5 + j);
    let right = word_within(layout, 5 + span + j);
    Words { left, right }
}

// The i-th of the n words of either array from a place on. Where the layout has the bytes its sizes say, no index is tested.
fn both_words(layout: &[u8], s: Sizes, from: usize, n: u16, i: usize) -> Words
    requires { from + n ≤ span_of s }
    ensures { (result.left ≡ left_in layout.now from n i) × (result.right ≡ right_in layout.now s from n i) }
{
    let span = s.span();
    if i < n as usize {
        if 10 + 4 * span <= layout.len() {
            return words_within(layout, s, from + i);
        }
    }
    let left = section_word(layout, 5, from, n, i);
    let right = section_word(layout, 5 + span, from, n, i);
    Words { left, right }
}

// Rule r, without its body.
pub fn read_rule(layout: &[u8], s: Sizes, r: usize) -> Rule
    ensures { result ≡ rule_at layout.now s r }
{
    let words = both_words(layout, s, s.facts as usize, s.rules, r);
    let left = words.left;
    let kind = kind_of(left % 4);
    let origin = origin_of(left / 4);
    Rule {
        kind,
        origin,
        head: Literal(words.right),
    }
}

// The i-th entry.
pub fn read_entry(layout: &[u8], s: Sizes, i: usize) -> Entry
    ensures { result ≡ entry_at layout.now s i }
{
    let from = s.facts as usize + s.rules as usize;
    let words = both_words(layout, s, from, s.entries, i);
    Entry {
        rule: words.left,
        literal: Literal(words.right),
    }
}

pub(crate) fn pair_of(words: Words) -> Pair
    ensures { (result.stronger ≡ words.left) × (result.weaker ≡ words.right) }
{
    Pair {
        stronger: words.left,
        weaker: words.right,
    }
}

// The i-th pair.
pub fn read_pair(layout: &[u8], s: Sizes, i: usize) -> Pair
    ensures { result ≡ pair_at layout.now s i }
{
    let from = s.facts as usize + s.rules as usize + s.entries as usize;
    pair_of(both_words(layout, s, from, s.pairs, i))
}
