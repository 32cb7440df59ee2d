// How the words of the memory are laid out (specs/Layout.antt). The sizes are cast by `as`, since a constant's value calls no function.
use table::format::Sizes;

// The tags of a literal.
pub const TAGS: u16 = 4;

// The words of a field: one for each rule, or for each literal, of which there are as many.
pub const FIELD_SIZE: usize = Sizes::MAX_RULES as usize;

// Where the uses begin: after the fields.
pub const USES_BASE: usize = 28 * FIELD_SIZE;

// The words of the memory: a use for each entry is the last part.
pub const MEMORY_SIZE: usize = USES_BASE + Sizes::MAX_ENTRIES as usize;
