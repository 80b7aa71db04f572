// What fits a calendar and what is working time (`interval_fits`, `is_working_time` in models/calendar.rs; 01, 'Calendar'). It is for the
// crates above: the calendar is valid, and nothing is checked again.
// Searched are the windows for one that holds the span or the instant, then the blocks for one in the way, each once and one after
// another: at most 64 looks.
#![tactic(auto)]

ghost use Rattle.std.specs.Prelude.{◌≡◌, true, ◌≤◌, Bool};
ghost use Rattle.calendar_fits.specs.Tests.{Tests};
ghost use Rattle.calendar.specs.Spans.{Span, spans, any, holds, meets, contains};
ghost use Rattle.calendar.specs.Valid.{valid};
ghost use Rattle.calendar.specs.Fits.{fits};
ghost use Rattle.calendar.specs.Work.{working};

use calendar::{Calendar, TimeWindows};

// Some span passes the test. (By index: two columns are read side by side.)
fn any_span<F: Fn(u64, u64) -> bool>(l: TimeWindows, test: F) -> bool
    requires len_bound { l.len ≤ 32 }
    requires callable { F.IsAlwaysCallable test }
    ensures { (P : Span → Bool) → Tests (F.post test) P → result ≡ any P (spans l) }
{
    for i in 0..l.len {
        if test(l.starts[i], l.ends[i]) {
            return true;
        }
    }
    false
}

// Some span holds all of [start, end].
fn some_holds(l: TimeWindows, start: u64, end: u64) -> bool
    requires { l.len ≤ 32 }
    ensures { result ≡ any (holds start end) (spans l) }
{
    any_span(l, |from, to| from <= start && end <= to)
}

// Some span begins before `end` and ends after `start`.
fn some_meets(l: TimeWindows, start: u64, end: u64) -> bool
    requires { l.len ≤ 32 }
    ensures { result ≡ any (meets start end) (spans l) }
{
    any_span(l, |from, to| from < end && start < to)
}

// Some span contains the instant.
fn some_contains(l: TimeWindows, time: u64) -> bool
    requires { l.len ≤ 32 }
    ensures { result ≡ any (contains time) (spans l) }
{
    any_span(l, |from, to| from <= time && time < to)
}

// The unbroken span [start, end) fits: one single window holds it, or there are none, and no block meets it.
#[tactic(auto, unfolding(calendar::specs::Fits::fits))]
pub fn interval_fits(c: Calendar, start: u64, end: u64) -> bool
    requires { valid c ≡ true }
    ensures { result ≡ fits c start end }
{
    !some_meets(c.blocks, start, end) && (c.windows.len == 0 || some_holds(c.windows, start, end))
}

// Working time: inside some window, or there are none, and in no block.
#[tactic(auto, unfolding(calendar::specs::Work::working))]
pub fn is_working_time(c: Calendar, time: u64) -> bool
    requires { valid c ≡ true }
    ensures { result ≡ working c time }
{
    !some_contains(c.blocks, time) && (c.windows.len == 0 || some_contains(c.windows, time))
}
