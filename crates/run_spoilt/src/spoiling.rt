// One cell of a board, an order or a slate gets any word; `x` is the random number that says which cell and which word.
use crate::random::{cell, entry, next, speed, word};
use activity::{Activity, ActivityDuration, ResourceRequirement, ResourceTiming};
use board::{Board, Resource, TransitionMatrix};
use calendar::{Calendar, TimeWindows};
use scheduler::rows::{Row, WORDS};
use timeline::ResourceTimeline;

fn spoilt_spans(mut l: TimeWindows, x: u64) -> TimeWindows {
    let i = (x / 64 % 32) as usize;
    let w = word(next(x));
    match x % 3 {
        0 => l.starts[i] = w,
        1 => l.ends[i] = w,
        _ => l.len = w as usize,
    }
    l
}

fn spoilt_calendar(c: Calendar, x: u64) -> Calendar {
    if x % 2 == 0 {
        let windows = spoilt_spans(c.windows, next(x));
        Calendar { windows, ..c }
    } else {
        let blocks = spoilt_spans(c.blocks, next(x));
        Calendar { blocks, ..c }
    }
}

fn spoilt_diary(mut t: ResourceTimeline, x: u64) -> ResourceTimeline {
    let i = (x / 64 % 64) as usize;
    let y = next(x);
    let w = word(y);
    match x % 8 {
        0 => t.capacity = (w % 4294967296) as u32,
        1 => t.calendar = spoilt_calendar(t.calendar, y),
        2 => t.starts[i] = w,
        3 => t.ends[i] = w,
        4 => t.units[i] = (w % 4294967296) as u32,
        5 => t.latest[i] = w,
        6 => t.len = w as usize,
        _ => t.booked = w,
    }
    t
}

fn spoilt_matrix(mut m: TransitionMatrix, x: u64) -> TransitionMatrix {
    let i = (x / 64 % 256) as usize;
    let ms = entry(next(x));
    match x % 5 {
        0 => m.present = !m.present,
        1 => m.default = ms,
        2 => m.initial = ms,
        3 => m.transitions[i] = ms,
        _ => m.initials[i % 16] = ms,
    }
    m
}

// A last category, any byte.
fn any_last(x: u64) -> Option<u8> {
    (x % 4 != 0).then_some((word(next(x)) % 256) as u8)
}

fn spoilt_resource(mut r: Resource, x: u64) -> Resource {
    let i = (x / 64 % 4) as usize;
    let y = next(x);
    let w = word(y);
    let byte = (w % 256) as u8;
    match x % 10 {
        0 => r.number = byte,
        1 => r.kind = byte,
        2 => r.skills = w,
        3 => r.companions[i] = byte,
        4 => r.count = w as usize,
        5 | 6 => r.timeline = spoilt_diary(r.timeline, y),
        7 | 8 => r.matrix = spoilt_matrix(r.matrix, y),
        _ => r.last = any_last(y),
    }
    r
}

// `n` cells of a board.
pub fn spoilt_board(mut b: Board, x: u64, n: u64) -> Board {
    let mut y = x;
    for _ in 0..n {
        y = next(y);
        let w = word(next(y));
        match y % 16 {
            0 => b.len = w as usize,
            1 | 2 => b.transport[(y / 64 % 256) as usize] = w,
            _ => {
                let i = (y / 64 % 16) as usize;
                b.resources[i] = spoilt_resource(b.resources[i], next(y));
            }
        }
    }
    b
}

fn spoilt_duration(mut d: ActivityDuration, x: u64) -> ActivityDuration {
    let w = word(next(x));
    match x % 3 {
        0 => d.setup = w,
        1 => d.process = w,
        _ => d.teardown = w,
    }
    d
}

fn spoilt_requirement(mut q: ResourceRequirement, x: u64) -> ResourceRequirement {
    let w = word(next(x));
    match x % 7 {
        0 => q.kind = (w % 256) as u8,
        1 => q.candidates = (w % 65536) as u16,
        2 => q.skills = w,
        3 | 4 => q.quantity = (w % 4294967296) as u32,
        _ => q.usage = (w % 4294967296) as u32,
    }
    q
}

fn any_timing(d: ActivityDuration, x: u64) -> ResourceTiming {
    let y = next(x);
    match x % 4 {
        0 => ResourceTiming::Nothing,
        1 => ResourceTiming::Duration(spoilt_duration(d, y)),
        _ => ResourceTiming::Speed(speed(y)),
    }
}

fn spoilt_cell(mut a: Activity, x: u64) -> Activity {
    let y = next(x);
    let w = word(y);
    match x % 16 {
        0 | 1 => a.category = (w % 256) as u8,
        2 => a.duration = spoilt_duration(a.duration, y),
        3 => a.resumable = !a.resumable,
        4 => a.release = Some(w),
        5 => a.calendar = spoilt_calendar(a.calendar, y),
        6 => a.origins = (w % 65536) as u16,
        7 => a.len = w as usize,
        8 | 9 | 10 => a.timings[(x / 64 % 16) as usize] = any_timing(a.duration, y),
        _ => {
            let i = cell(y) % 4;
            a.requirements[i] = spoilt_requirement(a.requirements[i], y);
        }
    }
    a
}

// `n` cells of an order.
pub fn spoilt_order(mut a: Activity, x: u64, n: u64) -> Activity {
    let mut y = x;
    for _ in 0..n {
        y = next(y);
        a = spoilt_cell(a, next(y));
    }
    a
}

// `n` words of a slate, half of them in its first row.
pub fn spoilt_slate(mut s: [Row; 32], x: u64, n: u64) -> [Row; 32] {
    let mut y = x;
    for _ in 0..n {
        y = next(y);
        s[cell(y)][(y / 16) as usize % WORDS] = word(next(y));
    }
    s
}
