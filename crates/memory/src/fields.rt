// The fields of the memory; specs/Fields.antt says what stands in each. Fields 0 to 3 are the marks of a literal, one for each tag.
// They are numbers, as an enum would be no plainer: a tag is added to some (`HAS + t`), and a word's place is computed from its field's.

// Of a rule, one for each tag t, at HAS + t: how many antecedents have it, a virtual one that always holds counted.
pub const HAS: usize = 4;

pub const HAS_PROVED: usize = 6;

pub const HAS_REFUTED: usize = 7;

// Of a rule, written once.
pub const SIZE: usize = 8;

pub const HEAD: usize = 9;

pub const KIND: usize = 10;

pub const NAMING: usize = 11;

pub const RIVALS: usize = 12;

pub const FIRST: usize = 13;

// Of a rule: rivals that fire, rivals that are out.
pub const BEATEN: usize = 14;

pub const LOST: usize = 15;

// Of a literal, written once.
pub const USES: usize = 16;

pub const STRICT: usize = 17;

pub const SUPPORT: usize = 18;

pub const HEADED: usize = 19;

pub const FACT: usize = 20;

// Of a literal: counts of rules.
pub const PROVED: usize = 21;

pub const REFUTED: usize = 22;

pub const FIRING: usize = 23;

pub const OUT: usize = 24;

pub const COUNTERED: usize = 25;

pub const UNOPPOSED: usize = 26;

// By a tag t, +∂ or −∂. Of a rule, at RIVALS_BY + t: rivals that it decides, BEATEN or LOST.
pub const RIVALS_BY: usize = 12;

// Of a literal, at RULES_BY + t, for every tag: rules that it decides, PROVED, REFUTED, FIRING or OUT.
pub const RULES_BY: usize = 21;

// Of a literal, at BY_RIVAL + t: rules that a rival it decides may add to, COUNTERED or UNOPPOSED.
pub const BY_RIVAL: usize = 23;

// Of a literal, at BY_ITSELF - t: rules that a rule it decides may itself add to, UNOPPOSED or COUNTERED.
pub const BY_ITSELF: usize = 28;
