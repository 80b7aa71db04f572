// A resource and its companions: where they stand on the board, who of them is asked next, and how they are asked one after another (the
// head of the loop over the serving resources in `place_activity`, and `with_companions`, in scheduler/simple.rs; 01, 'Choosing', its
// first half).
// Each is asked from the start that the one before gave, and the resource again where the start has moved on. A companion not on the board
// rules the resource out.
#![tactic(auto)]

ghost use Rattle.std.specs.Prelude.{◌≡◌, ℕ, ◌<◌, ◌≤◌, true, length, slice_index};
ghost use Rattle.place_companions.specs.Seats.{seat_of};
ghost use Rattle.calendar.specs.Limits.{last_asked, longest_span, never};
ghost use Rattle.timeline.specs.Valid.{valid};
ghost use Rattle.timeline_fit.specs.Steps.{start_of};
ghost use Rattle.scheduler.specs.Shares.{start_on, next_asked};
ghost use Rattle.place_companions.specs.Steps.{idle, answered_by};
ghost use Rattle.place_companions.specs.Members.{member_of};

use activity::ResourceRequirement;
use place_plans::Plan;
use timeline::ResourceTimeline;

// The place of the i-th of a resource and its companions, the resource itself first; none where a companion has no place on the board.
pub fn seat_of(own: usize, companions: &[u8], places: &[usize; 16], i: usize) -> Option<usize>
    requires { (k : ℕ) → k < length companions.now → slice_index companions.now k ≤ 15 }
    ensures { result ≡ seat_of own companions.now places.now i }
{
    let mut seat = own;
    for (j, number) in companions.iter().enumerate() {
        let place = places[usize::from(*number)];
        if place >= 16 {
            return None;
        }
        if j + 1 == i {
            seat = place;
        }
    }
    Some(seat)
}

// How far the asking has come: those in front of the one to ask next can start at `start`. At 0 and 0 nobody is asked yet.
#[derive(Clone, Copy)]
pub struct Asking {
    pub start: u64,
    pub next: usize,
}

// The least start on one diary, unbroken or resumable: `resumable` is the order's own field.
pub fn start_on(
    t: ResourceTimeline,
    resumable: bool,
    span: u64,
    units: u32,
    from: u64,
) -> Option<u64>
    requires { (valid t ≡ true) × (from ≤ last_asked) × (span ≤ longest_span) × (1 ≤ units) }
    ensures { start_of result ≡ start_on resumable span (record { timeline = t; units = units }) from }
{
    if resumable {
        let (start, _) = timeline_resume::earliest_resumable(t, from, span, units)?;
        Some(start)
    } else {
        timeline_fit::earliest_fit(t, from, span, units)
    }
}

// The diary to ask after the i-th: the next, and the first again where the start has moved on past those in front.
pub fn next_asked(i: usize, stays: bool) -> usize
    requires { i < never }
    ensures { result ≡ next_asked i stays }
{
    if i == 0 || stays { i + 1 } else { 0 }
}

pub fn unasked() -> Asking
    ensures { result ≡ idle }
{
    Asking { start: 0, next: 0 }
}

// The i-th has answered, asked from an instant on. Where it has no start, none of the others is asked.
pub fn answered(i: usize, from: u64, s: Option<u64>) -> Option<Asking>
    requires { i < never }
    ensures { result ≡ answered_by i from (start_of s) }
{
    let start = s?;
    let next = next_asked(i, start == from);
    Some(Asking { start, next })
}

// The one of a resource and its companions that is asked next, by its place on the board: the units wanted of it, and from when on. It has
// no place where the resource does not serve, or a companion is not on the board.
#[derive(Clone, Copy)]
pub struct Member {
    pub place: Option<usize>,
    pub units: u32,
    pub from: u64,
}

pub fn member_of(
    q: ResourceRequirement,
    p: Plan,
    own: usize,
    places: &[usize; 16],
    t: u64,
    g: Asking,
) -> Member
    requires { (p.number < 16) × (p.count ≤ 4) × ((k : ℕ) → k < p.count → slice_index p.companions k ≤ 15) }
    ensures { result ≡ member_of q p own places.now t g }
{
    let place = if activity::basics::serves(q, p.number, p.kind, p.skills) {
        seat_of(own, &p.companions[..p.count], places, g.next)
    } else {
        None
    };
    Member {
        place,
        units: if 0 < g.next { 1 } else { q.usage },
        from: cells::later(cells::later(t, p.arrival), g.start),
    }
}
