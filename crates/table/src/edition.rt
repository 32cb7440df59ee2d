// Document 02, S-5: the editions of a table's file. What the other modules read is the layout, which is the same in both.
ghost use Rattle.std.specs.Prelude.{◌≡◌, drop};
ghost use Rattle.logic.specs.Tests.{isnt};
ghost use Rattle.table.specs.declared.edition.Edition.TheVariants.{Two};
ghost use Rattle.table.specs.Editions.{layout_of, unmarked};

#[derive(Clone, Copy, PartialEq, Eq)]
pub enum Edition {
    // 1, the old layout
    Old,
    // 2, an added byte 2 and then the old layout, in which a rule has an origin
    Two,
}

// Whether there is a first byte, and it is 2.
#[tactic(auto, unfolding(crate::specs::Editions::unmarked, logic::specs::Tests::isnt))]
fn begins_with_two(table: &[u8]) -> bool
    ensures { result ≡ isnt (unmarked Two table.now) }
{
    table.first() == Some(&2)
}

// Whether the file lacks the byte that the edition begins with.
#[tactic(auto, unfolding(crate::specs::Editions::unmarked, logic::specs::Tests::isnt))]
pub(crate) fn is_unmarked(table: &[u8], edition: Edition) -> bool
    ensures { result ≡ unmarked edition table.now }
{
    match edition {
        Edition::Old => false,
        Edition::Two => !begins_with_two(table),
    }
}

// All but the first byte, if there is one.
fn after_first(table: &[u8]) -> &[u8]
    ensures { result.now ≡ drop 1 table.now }
{
    match table.split_first() {
        Some((_, rest)) => rest,
        None => table,
    }
}

// The layout of a file: the file itself, or in edition two the bytes after its first.
#[tactic(auto, unfolding(crate::specs::Editions::layout_of))]
pub fn layout(table: &[u8], edition: Edition) -> &[u8]
    ensures { result.now ≡ layout_of edition table.now }
{
    match edition {
        Edition::Old => table,
        Edition::Two => after_first(table),
    }
}
