// The edition of a table, and the reading of a run, as a caller in C tells them.
ghost use Rattle.std.specs.Prelude.{◌≡◌};
ghost use Rattle.console.specs.Told.{told_by, reading_by};

use engine::reading::Reading;
use table::edition::Edition;

// What a number tells as an edition. The number is that of the interface in C, so this is no `TryFrom` of the type's crate, table.
#[tactic(auto, unfolding(crate::specs::Told::told_by))]
pub fn told_by(n: u32) -> Option<Edition>
    ensures { result ≡ told_by n }
{
    match n {
        1 => Some(Edition::Old),
        2 => Some(Edition::Two),
        _ => None,
    }
}

// What a number tells as a reading.
#[tactic(auto, unfolding(crate::specs::Told::reading_by))]
pub fn reading_by(n: u32) -> Option<Reading>
    ensures { result ≡ reading_by n }
{
    match n {
        0 => Some(Reading::Plain),
        1 => Some(Reading::WellFounded),
        _ => None,
    }
}
