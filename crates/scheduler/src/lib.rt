// Placing and committing (scheduler/simple.rs; 01, 'Placing'): the definitions, what they amount to, and demand 3 stand in specs/
// (docs/READING.md leads through them). Here is what the crates that run them share.
#![tactic(auto)]

ghost use Rattle.std.specs.Prelude.{◌≡◌};
ghost use Rattle.scheduler.specs.Entries.{held_entry, companion_entry, no_entry};

pub mod rows;

// A resource held (one of the Rust's `selections`), by its place on the board, with its start and the units wanted of it.
#[derive(Clone, Copy, Default)]
pub struct Selection {
    pub place: usize,
    pub start: u64,
    pub usage: u32,
}

// An entry of a placement: resource, setup, units, companion or not.
#[derive(Clone, Copy, Default)]
pub struct Entry {
    pub number: u8,
    pub setup: u64,
    pub units: u32,
    pub companion: bool,
}

// The entry of a resource held.
pub fn held_entry(number: u8, setup: u64, units: u32) -> Entry
    ensures { result ≡ held_entry number setup units }
{
    Entry {
        number,
        setup,
        units,
        companion: false,
    }
}

// The entry of a companion: setup 0, unit 1.
pub fn companion_entry(number: u8) -> Entry
    ensures { result ≡ companion_entry number }
{
    Entry {
        number,
        setup: 0,
        units: 1,
        companion: true,
    }
}

// What stands in a cell without an entry.
pub fn no_entry() -> Entry
    ensures { result ≡ no_entry }
{
    Entry::default()
}
