// A calendar: up to 32 windows and 32 blocks (models/calendar.rs; 01, 'Calendar' and the replies of 'Window or block').
#![tactic(auto)]

pub mod limits;
mod refusal;

ghost use Rattle.std.specs.Prelude.{◌≡◌, true, ◌<◌};
ghost use Rattle.cells.specs.Same.{Compares};
ghost use Rattle.calendar.specs.Valid.{cell_right, spans_right, valid};
ghost use Rattle.calendar.specs.Replies.{added_of, refused};
ghost use Rattle.std.specs.Prelude.{IfOk};
ghost use Rattle.calendar.specs.Add.{add_refusal, with_span, empty, add_window, add_block};

use limits::LAST_INSTANT;
pub use refusal::Refusal;

// Up to 32 spans [start, end), the cells past `len` 0. (Arrays with a length: no heap is used, and 15 speaks of the cells past it. Starts
// and ends apart: joint time sorts each, and the searches read one column as a slice.)
#[derive(Clone, Copy, PartialEq, Eq)]
pub struct TimeWindows {
    pub starts: [u64; 32],
    pub ends: [u64; 32],
    pub len: usize,
}

// No windows means always open; a block shuts whatever window it meets.
#[derive(Clone, Copy, PartialEq, Eq)]
pub struct Calendar {
    pub windows: TimeWindows,
    pub blocks: TimeWindows,
}

// Cell i of a list of n spans keeps the rules.
#[tactic(auto, unfolding(crate::specs::Valid::cell_right))]
fn cell_right(i: usize, n: usize, start: u64, end: u64) -> bool
    ensures { result ≡ cell_right i n start end }
{
    if i < n {
        start < end && end <= LAST_INSTANT
    } else {
        start == 0 && end == 0
    }
}

// (By index: the two columns are read side by side.)
fn spans_right(l: TimeWindows) -> bool
    ensures { result ≡ spans_right l }
{
    let n = l.len;
    if n > 32 {
        return false;
    }
    for i in 0..32 {
        if !cell_right(i, n, l.starts[i], l.ends[i]) {
            return false;
        }
    }
    true
}

// The calendar keeps the rules. (A test, and no type of calendars that keep them: an entry point takes any and refuses with 15.)
#[tactic(auto, unfolding(crate::specs::Valid::valid))]
pub fn is_valid(c: Calendar) -> bool
    ensures { result ≡ valid c }
{
    spans_right(c.windows) && spans_right(c.blocks)
}

// Whether two calendars are the same, cell by cell.
pub fn same(a: Calendar, b: Calendar) -> bool
    ensures { Compares result a b }
{
    a == b
}

// Whether a span can be added to a list of `held`, or why not. (Its tests stand again where a booking and a commitment are checked: each
// definition says them in its own order.)
#[tactic(auto, unfolding(crate::specs::Add::add_refusal))]
fn check_span(c: Calendar, held: usize, start: u64, end: u64) -> Result<(), Refusal>
    ensures { refused result ≡ add_refusal c held start end }
{
    if !is_valid(c) {
        return Err(Refusal::Invalid);
    }
    if start > LAST_INSTANT || end > LAST_INSTANT {
        return Err(Refusal::OutOfRange);
    }
    if end <= start {
        return Err(Refusal::EmptySpan);
    }
    if held >= 32 {
        return Err(Refusal::Full);
    }
    Ok(())
}

// The list with one span more, behind the others.
#[tactic(auto, unfolding(crate::specs::Add::with_span))]
fn with_span(l: TimeWindows, start: u64, end: u64) -> TimeWindows
    requires { l.len < 32 }
    ensures { result ≡ with_span l start end }
{
    let mut r = l;
    r.starts[l.len] = start;
    r.ends[l.len] = end;
    r.len += 1;
    r
}

impl Calendar {
    // Always open.
    #[tactic(auto, unfolding(crate::specs::Add::empty))]
    pub fn new() -> Calendar
        ensures { result ≡ empty }
    {
        let none = TimeWindows {
            starts: [0; 32],
            ends: [0; 32],
            len: 0,
        };
        Calendar {
            windows: none,
            blocks: none,
        }
    }

    // Adds a window, or refuses: `Invalid` a calendar that breaks the rules, `OutOfRange` an instant, `EmptySpan` an end at or before
    // start, `Full` a 33rd.
    #[tactic(auto, unfolding(crate::specs::Add::add_window, crate::specs::Add::added))]
    pub fn add_window(self, start: u64, end: u64) -> Result<Calendar, Refusal>
        ensures value { added_of self result ≡ add_window self start end }
        ensures calendar_value { IfOk result (λ c. valid self ≡ true → valid c ≡ true) }
    {
        check_span(self, self.windows.len, start, end)?;
        let windows = with_span(self.windows, start, end);
        Ok(Calendar { windows, ..self })
    }

    // Adds a block, or refuses, as for a window. (Two functions, and no flag: the paper has two calls.)
    #[tactic(auto, unfolding(crate::specs::Add::add_block, crate::specs::Add::added))]
    pub fn add_block(self, start: u64, end: u64) -> Result<Calendar, Refusal>
        ensures value { added_of self result ≡ add_block self start end }
        ensures calendar_value { IfOk result (λ c. valid self ≡ true → valid c ≡ true) }
    {
        check_span(self, self.blocks.len, start, end)?;
        let blocks = with_span(self.blocks, start, end);
        Ok(Calendar { blocks, ..self })
    }
}
