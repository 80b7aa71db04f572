// Fitting: the least start at which all entries and the order's own calendar fit unbroken (the second half of `place_activity` and
// `own_timeline` in scheduler/simple.rs; 01, 'Fitting').
// Searched are the instants from the choosing instant on: each diary is asked from the start that the one before gave, and the first again
// where the start has moved on, until all stay. Each move leads to an event on one of the diaries or on the own calendar, so it ends
// (`asked-less` in scheduler/specs/Laws/Asking.antt); there are at most 2,112 of them. The Rust asks all from one instant and goes on to
// the latest answer; the least common start is the same (`closing-rounds` in scheduler/specs/Theorems/Counting.antt).
#![tactic(auto)]

ghost use Rattle.std.specs.Prelude.{◌≡◌, ◌<◌, ◌+◌, false, get_or};
ghost use Rattle.scheduler.specs.Fitting.{shares_of};
ghost use Rattle.scheduler.specs.Shares.{own_share, no_share};
ghost use Rattle.place_entries.specs.Cells.{first_entries};
ghost use Rattle.place_fit.specs.Closing.{Fittable, closing, fit_of};
ghost use Rattle.place_fit.specs.Asks.{Asks, those, share};

use board::Board;
use calendar::Calendar;
use place_entries::Entries;
use timeline::ResourceTimeline;

// The order's own calendar as a diary that nothing books.
pub fn own_timeline(calendar: Calendar) -> ResourceTimeline
    ensures { result ≡ (own_share calendar).timeline }
{
    ResourceTimeline {
        calendar,
        ..ResourceTimeline::new(1)
    }
}

// The i-th diary that is asked, and the units wanted of it: the order's own calendar first, then those of the entries.
pub fn diary_at<'a>(
    b: &'a Board,
    e: &Entries,
    places: &[usize; 16],
    own: &'a ResourceTimeline,
    i: usize,
) -> (&'a ResourceTimeline, u32)
    requires { Asks b.now e.now.entries e.now.count places.now own.now × (i < e.now.count + 1) }
    ensures { share result.0.now result.1 ≡ get_or (those b.now e.now.entries e.now.count own.now) i no_share }
{
    if i == 0 {
        return (own, 1);
    }
    let x = e.entries[i - 1];
    (
        &b.resources[places[usize::from(x.number)]].timeline,
        x.units,
    )
}

// Unbroken: the least start on the own calendar and the diaries of all entries, with its end. Each is asked from the start that the one
// before gave.
pub fn fit_unbroken(
    b: Board,
    e: Entries,
    places: &[usize; 16],
    own: Calendar,
    span: u64,
    from: u64,
) -> Option<(u64, u64)>
    requires { Fittable b places.now own e from span }
    ensures { fit_of result ≡ closing false (shares_of b (first_entries e)) own span from }
{
    let first = own_timeline(own);
    let mut t = from;
    let mut i: usize = 0;
    // A `while`: the asking goes on from one diary to the next, and back to the first where the start has moved on.
    while i <= e.count {
        let (d, units) = diary_at(&b, &e, places, &first, i);
        let x = timeline_fit::earliest_fit(*d, t, span, units)?;
        i = place_companions::next_asked(i, x == t);
        t = x;
    }
    Some((t, t + span))
}
