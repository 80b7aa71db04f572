// A diary: bookings by start with their running latest ends, a calendar and a capacity (scheduler/timeline.rs; 01, 'Diary' and the
// replies of 'Booking').
#![tactic(auto)]

use calendar::limits::{LAST_INSTANT, MOST_UNITS};
use calendar::{Calendar, Refusal};

mod insert;
pub mod same;

ghost use Rattle.std.specs.Prelude.{◌≡◌, true, IfOk, ◌&&◌, ◌-◌, ◌^◌, ◌≤◌, ◌<◌, eqb};
ghost use Rattle.timeline.specs.Valid.{cell_right, cell_empty, filled_from, empty_from, cells_right, valid};
ghost use Rattle.timeline.specs.Bookings.{bookings, total};
ghost use Rattle.timeline.specs.Diary.{capacity_of, new_diary, blank_diary};
ghost use Rattle.timeline.specs.Book.{book_reply, book_refusal};
ghost use Rattle.timeline.specs.Replies.{booked_of};
ghost use Rattle.calendar.specs.Replies.{refused};

// 01: diary. The booking in cell i is starts[i], ends[i], units[i], and latest[i] the latest end of cells 0 to i (the Rust's
// latest_end_to). Cells past `len` are 0. No windows and no blocks: a diary without a calendar. (Arrays with a length, and no list of
// bookings: 01, 'What form to use where', names this form.)
#[derive(Clone, Copy, PartialEq, Eq)]
pub struct ResourceTimeline {
    pub capacity: u32,
    pub calendar: Calendar,
    pub starts: [u64; 64],
    pub ends: [u64; 64],
    pub units: [u32; 64],
    pub latest: [u64; 64],
    pub len: usize,
    pub booked: u64,
}

// What a booking answers: the refusal's number, 0 for none, and the diary, new or unchanged. (A number beside a diary, and no Result: 01,
// 'What form to use where', names this form; `try_book` answers a Result.)
#[derive(Clone, Copy)]
pub struct Booked {
    pub refusal: u8,
    pub timeline: ResourceTimeline,
}

// A filled cell keeps the rules, after a cell with start ps and latest end pl.
#[tactic(auto, unfolding(crate::specs::Valid::cell_right))]
fn cell_right(s: u64, e: u64, u: u32, l: u64, ps: u64, pl: u64) -> bool
    ensures { result ≡ cell_right s e u l ps pl }
{
    s < e && e <= LAST_INSTANT && (1..=MOST_UNITS).contains(&u) && ps <= s && l == pl.max(e)
}

#[tactic(auto, unfolding(crate::specs::Valid::cell_empty))]
fn cell_empty(s: u64, e: u64, u: u32, l: u64) -> bool
    ensures { result ≡ cell_empty s e u l }
{
    s == 0 && e == 0 && u == 0 && l == 0
}

// The cells up to the length are filled, and the booked total is theirs. (By index: four columns are read side by side.)
fn filled(t: ResourceTimeline) -> bool
    requires { t.len ≤ 64 }
    ensures { result ≡ filled_from t 0 t.len && eqb t.booked (total (bookings t)) }
{
    let mut ps = 0;
    let mut pl = 0;
    let mut sum = 0;
    for i in 0..t.len {
        let s = t.starts[i];
        let e = t.ends[i];
        let u = t.units[i];
        let l = t.latest[i];
        if !cell_right(s, e, u, l, ps, pl) {
            return false;
        }
        sum += (e - s) * (u as u64);
        ps = s;
        pl = l;
    }
    t.booked == sum
}

// The cells past it are empty. (By index, as above.)
fn empty(t: ResourceTimeline) -> bool
    requires { t.len ≤ 64 }
    ensures { result ≡ empty_from t t.len (64 - t.len) }
{
    for i in t.len..64 {
        if !cell_empty(t.starts[i], t.ends[i], t.units[i], t.latest[i]) {
            return false;
        }
    }
    true
}

// All 64 cells keep the rules, and the booked total is theirs.
fn cells_right(t: ResourceTimeline) -> bool
    requires { t.len ≤ 64 }
    ensures { result ≡ cells_right t }
{
    filled(t) && empty(t)
}

// The diary keeps the rules. (A test, and no type of diaries that keep them: an entry point takes any diary and refuses with 15.)
#[tactic(auto, unfolding(crate::specs::Valid::valid, crate::specs::Valid::contents_right))]
pub fn is_valid(t: ResourceTimeline) -> bool
    ensures { result ≡ valid t }
{
    1 <= t.capacity
        && t.capacity < 2147483648
        && calendar::is_valid(t.calendar)
        && t.len <= 64
        && cells_right(t)
}

// A given capacity, and at least 1.
fn capacity_of(given: i32) -> u32
    ensures { (result ≡ capacity_of given) × (1 ≤ result) × (result < 2 ^ 31) }
{
    if given > 1 { given as u32 } else { 1 }
}

// 0 throughout, its capacity too: the diary of a cell past the length of a board.
pub fn blank() -> ResourceTimeline
    ensures { result ≡ blank_diary }
{
    ResourceTimeline {
        capacity: 0,
        ..ResourceTimeline::new(1)
    }
}

// Whether a booking can be made, or why not.
#[tactic(auto, unfolding(crate::specs::Book::book_refusal))]
fn check_booking(t: ResourceTimeline, start: u64, end: u64, units: u32) -> Result<(), Refusal>
    ensures { refused result ≡ book_refusal t start end units }
{
    if !is_valid(t) {
        return Err(Refusal::Invalid);
    }
    if start > LAST_INSTANT || end > LAST_INSTANT {
        return Err(Refusal::OutOfRange);
    }
    if end <= start {
        return Err(Refusal::EmptySpan);
    }
    if !(1..=MOST_UNITS).contains(&units) {
        return Err(Refusal::Units);
    }
    if t.len >= 64 {
        return Err(Refusal::Full);
    }
    Ok(())
}

impl ResourceTimeline {
    // An empty diary without a calendar. Its capacity is the given one, and at least 1.
    pub fn new(given: i32) -> ResourceTimeline
        ensures { (result ≡ new_diary given) × (valid result ≡ true) }
    {
        ResourceTimeline {
            capacity: capacity_of(given),
            calendar: Calendar::new(),
            starts: [0; 64],
            ends: [0; 64],
            units: [0; 64],
            latest: [0; 64],
            len: 0,
            booked: 0,
        }
    }

    // Books, or refuses by the paper's number: 15 a diary that breaks the rules, 1 an instant, 2 end at or before start, 3 units, 4 a
    // 65th.
    pub fn book(self, start: u64, end: u64, units: u32) -> Booked
        ensures value { result ≡ book_reply self start end units }
        ensures timeline_value { valid self ≡ true → valid result.timeline ≡ true }
    {
        match self.try_book(start, end, units) {
            Ok(timeline) => Booked {
                refusal: 0,
                timeline,
            },
            Err(refusal) => Booked {
                refusal: refusal.number(),
                timeline: self,
            },
        }
    }

    // The same, for a caller that hands a refusal on.
    #[tactic(auto, unfolding(crate::specs::Book::book_reply, crate::specs::Book::taken))]
    pub fn try_book(self, start: u64, end: u64, units: u32) -> Result<ResourceTimeline, Refusal>
        ensures value { booked_of self result ≡ book_reply self start end units }
        ensures timeline_value { IfOk result (λ t. valid self ≡ true → valid t ≡ true) }
    {
        check_booking(self, start, end, units)?;
        Ok(insert::insert(self, start, end, units))
    }
}
