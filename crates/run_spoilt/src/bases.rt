// Boards, orders and slates that keep the rules, to be spoilt.
ghost use Rattle.std.specs.Prelude.{◌≤◌};

use crate::random::next;
use activity::order::order_with;
use activity::{Activity, ActivityDuration, ResourceRequirement, ResourceTiming};
use board::Board;
use calendar::Calendar;
use scheduler::Entry;
use scheduler::rows::{BLANK_ROW, Row, row_of};
use timeline::ResourceTimeline;

// A calendar: none, a window with a block in it, or two windows that touch.
fn any_calendar(x: u64) -> Calendar {
    let c = Calendar::new();
    match x % 4 {
        0 => {
            let w = c.add_window(0, 3000 + x / 64 % 64).unwrap_or(c);
            w.add_block(40, 60 + x / 64 % 64).unwrap_or(w)
        }
        1 => {
            let w = c.add_window(10, 400).unwrap_or(c);
            w.add_window(400, 900).unwrap_or(w)
        }
        _ => c,
    }
}

// How many bookings are made: some, or about as many as a diary takes.
fn bookings(x: u64) -> u64
    ensures { result ≤ 64 }
{
    if x % 8 == 0 { 62 + x / 64 % 3 } else { x % 8 }
}

// A diary of capacity 1 to 3 with bookings.
fn any_diary(x: u64) -> ResourceTimeline {
    let mut t = ResourceTimeline {
        calendar: any_calendar(x / 4096),
        ..ResourceTimeline::new((1 + x / 64 % 3) as i32)
    };
    let mut y = x;
    for _ in 0..bookings(x) {
        y = next(y);
        let start = y % 3000;
        let booked = t.try_book(start, start + 1 + y / 4096 % 40, (1 + y / 64 % 2) as u32);
        t = booked.unwrap_or(t);
    }
    t
}

// A resource more, numbered 0, 3, 6, ..; some take one or two others along.
fn with_resource(board: Board, k: u64, x: u64) -> Board
    requires { k ≤ 6 }
{
    let t = any_diary(next(x));
    let number = (3 * k % 16) as u8;
    let kind = (k % 2) as u8;
    let others = [0, (x / 64 % 13) as u8];
    let added = if x % 3 != 0 {
        board_resources::add_resource(board, number, kind, x / 64, &others[..0], t)
    } else if x / 4096 % 2 == 0 {
        board_resources::add_resource(board, number, kind, 3, &others[..1], t)
    } else {
        board_resources::add_resource(board, number, kind, 3, &others, t)
    };
    added.unwrap_or(board)
}

// Matrices on two resources and transport between them.
fn with_setups(board: Board, x: u64) -> Board {
    let low = x % 20;
    let high = x / 64 % 20;
    let this = (x / 64 % 16) as u8;
    let a = board_matrices::set_matrix(board, 0, low as i64, high as i64).unwrap_or(board);
    let b = board_matrices::set_transition(a, 3, (x % 16) as u8, this, 7).unwrap_or(a);
    let c = board_matrices::set_initial(b, 3, this, 5).unwrap_or(b);
    board_transport::set_transport(c, 0, 3, x / 64 % 100).unwrap_or(c)
}

// A board of 3 to 6 resources.
pub fn any_board(x: u64) -> Board {
    let mut b = Board::new();
    let mut y = x;
    for k in 0..3 + x % 4 {
        y = next(y);
        b = with_resource(b, k, y);
    }
    with_setups(b, next(y))
}

// One or two resources of a type, or of a set.
fn any_requirement(x: u64) -> ResourceRequirement {
    let candidates = if x % 4 == 0 { 73 } else { 0 };
    ResourceRequirement {
        kind: (x / 16 % 2) as u8,
        candidates,
        skills: x / 32 % 2,
        quantity: (1 + x / 64 % 2) as u32,
        usage: (1 + x / 256 % 2) as u32,
    }
}

// Short durations, and now and then a process that few windows hold.
fn any_duration(x: u64) -> ActivityDuration {
    let process = if x % 8 == 0 {
        350 + x / 64 % 700
    } else {
        x / 64 % 100
    };
    ActivityDuration {
        setup: x / 16 % 8,
        process,
        teardown: x / 128 % 8,
    }
}

fn any_release(x: u64) -> Option<u64> {
    (x % 2 != 0).then_some(x / 64 % 100)
}

fn own_calendar(x: u64) -> Calendar {
    let c = Calendar::new();
    if x % 4 == 0 {
        c.add_window(x / 64 % 200, 300 + x / 64 % 900).unwrap_or(c)
    } else {
        c
    }
}

// An order with up to three requirements and two timings.
pub fn any_order(x: u64) -> Activity {
    let y = next(x);
    let z = next(y);
    let duration = any_duration(y);
    let first = any_requirement(x / 8);
    let rest = any_requirement(y / 8);
    let mut a = order_with(
        (z / 64 % 16) as u8,
        duration,
        z / 4 % 2 == 0,
        any_release(z),
        own_calendar(next(z)),
        (z / 128 % 65536) as u16,
    );
    a.len = (x / 64 % 4) as usize;
    a.requirements = [first, rest, rest, rest];
    a.timings[0] = ResourceTiming::Speed(2.0);
    a.timings[6] = ResourceTiming::Duration(duration);
    a
}

// Rows of a slate that could be committed.
pub fn any_slate(x: u64) -> [Row; 32] {
    let mut s = [BLANK_ROW; 32];
    let mut y = x;
    for row in s.iter_mut() {
        y = next(y);
        let e = scheduler::held_entry((3 * (y % 3)) as u8, y / 64 % 10, (1 + y / 256 % 2) as u32);
        *row = row_of(Entry {
            companion: y / 512 % 2 != 0,
            ..e
        });
    }
    s
}
