// A row of a slate: how an entry stands on it, and what is read of it. Which word is which, and how many there are, is said here alone.
ghost use Rattle.std.specs.Prelude.{◌≡◌};
ghost use Rattle.scheduler.specs.Rows.{row_of, number_in, setup_in, units_in, companion_in, is_companion};

use crate::Entry;

// How many words a row has.
pub const WORDS: usize = 4;

// Number, setup, units, companion 0 or 1.
pub type Row = [u64; WORDS];

pub const BLANK_ROW: Row = [0; WORDS];

// The row of an entry.
pub fn row_of(e: Entry) -> Row
    ensures { result ≡ row_of e }
{
    [
        u64::from(e.number),
        e.setup,
        u64::from(e.units),
        u64::from(e.companion),
    ]
}

// Four functions that differ in an index: README.md names them, and definitions of these names say what they give.
pub fn number_in(row: Row) -> u64
    ensures { result ≡ number_in row }
{
    row[0]
}

pub fn setup_in(row: Row) -> u64
    ensures { result ≡ setup_in row }
{
    row[1]
}

pub fn units_in(row: Row) -> u64
    ensures { result ≡ units_in row }
{
    row[2]
}

pub fn companion_in(row: Row) -> u64
    ensures { result ≡ companion_in row }
{
    row[3]
}

// Any word but 0.
pub fn is_companion(row: Row) -> bool
    ensures { result ≡ is_companion row }
{
    row[3] != 0
}
