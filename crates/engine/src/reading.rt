// Document 02, S-9: the readings in which a table is run.
ghost use Rattle.std.specs.Prelude.{◌≡◌};
ghost use Rattle.engine.specs.Readings.{reading_of};

#[derive(Clone, Copy)]
pub enum Reading {
    // 0, document 01's inference rules alone
    Plain,
    // 1, with the two searches of S-9
    WellFounded,
}

// How many searches a reading has.
pub(crate) fn search_count(reading: Reading) -> u16
    ensures { result ≡ (reading_of reading).searches }
{
    match reading {
        Reading::Plain => 0,
        Reading::WellFounded => 2,
    }
}
