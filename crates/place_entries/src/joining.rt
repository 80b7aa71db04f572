// The companions that join the entries of those held, once each (the second half of `place_activity` in scheduler/simple.rs; 01,
// 'Fitting').
ghost use Rattle.std.specs.Prelude.{◌≡◌, ◌≤◌, map, length, replicate};
ghost use Rattle.scheduler.specs.Fitting.{among};
ghost use Rattle.cells.specs.Every.{Each};
ghost use Rattle.scheduler.specs.Entries.{no_entry};
ghost use Rattle.place_entries.specs.Cells.{entry_number, Small, first_entries, with_joined};

use scheduler::Entry;

// The first `count` are the entries. There is no heap here, so an array stands with its count.
#[derive(Clone, Copy)]
pub struct Entries {
    pub entries: [Entry; 24],
    pub count: usize,
}

// No entry, and every cell blank.
pub fn no_entries() -> Entries
    ensures { (result.count ≡ 0) × (result.entries ≡ replicate 24 no_entry) }
{
    Entries {
        entries: [scheduler::no_entry(); 24],
        count: 0,
    }
}

// An entry with this number is there.
fn is_among(entries: &[Entry], number: u8) -> bool
    ensures { result ≡ among number (map entry_number entries.now) }
{
    entries.iter().any(|x| x.number == number)
}

// Companions not already there join once each, setup 0, unit 1.
pub fn join_each(e: Entries, companions: &[u8]) -> Entries
    requires { (e.count ≤ 8) × Each Small companions.now }
    ensures { (result.count ≤ 24) × (length result.entries ≡ 24) × (first_entries result ≡ with_joined (first_entries e) companions.now) }
{
    let mut more = e;
    for number in companions {
        if !is_among(&more.entries[..more.count], *number) {
            more.entries[more.count] = scheduler::companion_entry(*number);
            more.count += 1;
        }
    }
    more
}
