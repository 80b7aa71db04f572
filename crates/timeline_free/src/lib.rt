// What is free on a diary (`capacity_ok`, `is_free` in scheduler/timeline.rs; 01, 'Diary'). The diary is valid, and nothing is checked
// again.
#![tactic(auto)]

ghost use Rattle.std.specs.Prelude.{◌≡◌, true, ◌≤◌};
ghost use Rattle.timeline.specs.Bookings.{bookings};
ghost use Rattle.timeline.specs.Valid.{valid};
ghost use Rattle.timeline.specs.Free.{load, free};
ghost use Rattle.timeline.specs.Earliest.{free_on};
ghost use Rattle.timeline.specs.Steps.{overlapping, Columns, From};

use timeline::ResourceTimeline;

// The units of the bookings that overlap [s, e). None before cell `first` does, nor any from the first on that starts at e or later.
// (By index: three columns are read side by side.)
fn units_over(t: &ResourceTimeline, first: usize, s: u64, e: u64) -> u64
    requires { From t.now.starts t.now.ends t.now.units t.now.len first s }
    ensures { result ≡ overlapping (bookings t.now) s e }
{
    let mut sum = 0;
    for i in first..t.len {
        if t.starts[i] >= e {
            break;
        }
        if s < t.ends[i] {
            sum += t.units[i] as u64;
        }
    }
    sum
}

// The load at instant p of the span [s, e): the units of those that overlap the one millisecond from p on, and start before e.
fn load_at(t: &ResourceTimeline, first: usize, s: u64, e: u64, p: u64) -> u64
    requires { From t.now.starts t.now.ends t.now.units t.now.len first s × (s ≤ p) }
    ensures { result ≡ load (bookings t.now) s e p }
{
    units_over(t, first, p, if p < e { p + 1 } else { e })
}

// The load at s and at each booking start inside [s, e) leaves room: it rises nowhere else.
fn has_room(t: &ResourceTimeline, first: usize, s: u64, e: u64, room: u64) -> bool
    requires { From t.now.starts t.now.ends t.now.units t.now.len first s }
    ensures { result ≡ free room (bookings t.now) 0 s e }
{
    if load_at(t, first, s, e, s) > room {
        return false;
    }
    for i in first..t.len {
        let p = t.starts[i];
        if p >= e {
            break;
        }
        if s < p && load_at(t, first, s, e, p) > room {
            return false;
        }
    }
    true
}

// The bookings of the diary leave room over [s, e). Those before the first whose running latest end is at s or later are over.
pub fn free_over(t: &ResourceTimeline, s: u64, e: u64, room: u64) -> bool
    requires { Columns t.now.starts t.now.ends t.now.units t.now.latest t.now.len }
    ensures { result ≡ free room (bookings t.now) 0 s e }
{
    let first = cells::cells_before(&t.latest[..t.len], s);
    units_over(t, first, s, e) <= room || has_room(t, first, s, e, room)
}

// Units are free over [s, e).
pub fn is_free(t: ResourceTimeline, s: u64, e: u64, units: u32) -> bool
    requires { valid t ≡ true }
    ensures { result ≡ free_on t units s e }
{
    units <= t.capacity && free_over(&t, s, e, (t.capacity - units) as u64)
}
