// Asks calendars and joint working time what a stream of records on standard input says, and writes the replies.
// Kinds 2 and 3 are those of `slot`, 32 to 38 its own (tests/beside/README.md): it is run beside the Rust.
#![tactic(auto)]

ghost use Rattle.std.specs.Prelude.{◌≡◌, ◌+◌, ◌*◌, ◌≤◌, true, length};
ghost use Rattle.calendar.specs.Limits.{last_asked, longest_span};
ghost use Rattle.calendar_joint.specs.Layout.{Ruled};

mod kinds;

use calendar::limits::{LAST_ASKED, LONGEST_SPAN};
use calendar::{Calendar, Refusal};
use kinds::Kind;
use record_bodies::number;

// The calendar in hand, the list of calendars, and the list and the instant of the last layout.
#[derive(Clone, Copy)]
struct Runs {
    hand: Calendar,
    list: [Calendar; 25],
    count: usize,
    laid: [Calendar; 25],
    laid_count: usize,
    from: u64,
}

fn fresh() -> Runs {
    let c = Calendar::new();
    Runs {
        hand: c,
        list: [c; 25],
        count: 0,
        laid: [c; 25],
        laid_count: 0,
        from: 0,
    }
}

fn refused(refusal: Refusal) {
    io::write_all(1, b"refused ");
    io::print_decimal(1, u64::from(refusal.number()));
    io::write_all(1, b"\n");
}

// The calendar that is in hand after a change; a refusal is told, and changes nothing.
fn told(hand: Calendar, added: Result<Calendar, Refusal>) -> Calendar {
    match added {
        Ok(calendar) => calendar,
        Err(refusal) => {
            refused(refusal);
            hand
        }
    }
}

// Kind 32: does the span fit the calendar in hand.
fn ask_fits(c: Calendar, start: u64, end: u64) {
    if !calendar::is_valid(c) {
        refused(Refusal::Invalid);
        return;
    }
    if calendar_fits::interval_fits(c, start, end) {
        io::write_all(1, b"fits\n");
    } else {
        io::write_all(1, b"no\n");
    }
}

// Kind 33: does the calendar in hand work at the instant.
fn ask_working(c: Calendar, time: u64) {
    if !calendar::is_valid(c) {
        refused(Refusal::Invalid);
        return;
    }
    if calendar_fits::is_working_time(c, time) {
        io::write_all(1, b"working\n");
    } else {
        io::write_all(1, b"pause\n");
    }
}

// Kind 34: the calendar in hand goes to the end of the list.
fn join(mut s: Runs) -> Runs {
    if s.count >= 25 {
        refused(Refusal::Full);
        return s;
    }
    s.list[s.count] = s.hand;
    s.count += 1;
    s.hand = Calendar::new();
    s
}

// Kind 35: the list and the instant of the layout that is asked next.
fn lay(s: Runs, from: u64) -> Runs {
    if from > LAST_ASKED {
        refused(Refusal::OutOfRange);
        return s;
    }
    // Through a variable: tried in the literal, the proof did not close (the borrow check does not cover an array's field put there).
    let laid = s.list;
    Runs {
        laid,
        laid_count: s.count,
        from,
        ..s
    }
}

// All these calendars keep the rules.
fn all_valid(cs: &[Calendar]) -> bool
    ensures { result ≡ true → Ruled cs.now (length cs.now) }
{
    cs.iter().all(|c| calendar::is_valid(*c))
}

// Kind 36: when work ends over the last layout.
fn ask_end(s: Runs, start: u64, work: u64) {
    if start < s.from || start > LAST_ASKED || work > LONGEST_SPAN {
        refused(Refusal::OutOfRange);
        return;
    }
    if s.laid_count > 25 || !all_valid(&s.laid[..s.laid_count]) {
        refused(Refusal::Invalid);
        return;
    }
    let j = calendar_joint::joint_time(&s.laid[..s.laid_count], s.from);
    match calendar_work::work_end(&j.edges[..j.len], start, work) {
        Some(end) => {
            io::write_all(1, b"end ");
            io::print_decimal(1, end);
            io::write_all(1, b"\n");
        }
        None => {
            io::write_all(1, b"none\n");
        }
    }
}

// One round of the measurement: a layout, and 100 ends of work over it.
fn round(cs: &[Calendar], from: u64, step: u64, work: u64) -> u64
    requires { (length cs.now ≤ 25) × Ruled cs.now (length cs.now) × (from + 99 * step ≤ last_asked) × (work ≤ longest_span) }
{
    let j = calendar_joint::joint_time(cs, from);
    let mut sum: u64 = 0;
    for k in 0..100 {
        let end = calendar_work::work_end(&j.edges[..j.len], from + k * step, work);
        sum = sum.wrapping_add(end.unwrap_or(0));
    }
    sum
}

// Kind 38: so many rounds, the layout of each a millisecond later.
fn measure(cs: &[Calendar], rounds: u64, from: u64, step: u64, work: u64) -> u64
    requires { (length cs.now ≤ 25) × Ruled cs.now (length cs.now) × (from + rounds + 99 * step ≤ last_asked + 1) × (work ≤ longest_span) }
{
    let mut sum: u64 = 0;
    for r in 0..rounds {
        sum = sum.wrapping_add(round(cs, from + r, step, work));
    }
    sum
}

// It is refused where the last instant that is asked would be above 2^43.
fn ask_measure(s: Runs, rounds: u64, from: u64, step: u64, work: u64) {
    if rounds > 4294967296 || from > LAST_ASKED || step > LAST_ASKED || work > LONGEST_SPAN {
        refused(Refusal::OutOfRange);
        return;
    }
    if from + rounds.max(1) + 99 * step > LAST_ASKED + 1 {
        refused(Refusal::OutOfRange);
        return;
    }
    if s.count > 25 || !all_valid(&s.list[..s.count]) {
        refused(Refusal::Invalid);
        return;
    }
    let sum = measure(&s.list[..s.count], rounds, from, step, work);
    io::write_all(1, b"sum ");
    io::print_decimal(1, sum);
    io::write_all(1, b"\n");
}

// What one record does.
fn step(mut s: Runs, kind: Kind, body: &[u8; 28]) -> Runs {
    let first = number(body, 0, 8);
    let second = number(body, 8, 8);
    match kind {
        Kind::Window => s.hand = told(s.hand, s.hand.add_window(first, second)),
        Kind::Block => s.hand = told(s.hand, s.hand.add_block(first, second)),
        Kind::Fits => ask_fits(s.hand, first, second),
        Kind::Working => ask_working(s.hand, first),
        Kind::Join => return join(s),
        Kind::Lay => return lay(s, first),
        Kind::End => ask_end(s, first, second),
        Kind::Clear => s.count = 0,
        Kind::Measure => ask_measure(
            s,
            number(body, 0, 4),
            number(body, 4, 8),
            number(body, 12, 8),
            number(body, 20, 8),
        ),
    }
    s
}

// One record read and done; nothing where the stream ends.
fn record(s: Runs) -> Option<Runs> {
    let mut kind = [0u8; 1];
    if io::read_full(0, &mut kind) == 0 {
        return None;
    }
    let Ok(kind) = Kind::try_from(kind[0]) else {
        refused(Refusal::Unreadable);
        return None;
    };
    let n = kind.len();
    let mut body = [0u8; 28];
    if io::read_full(0, &mut body[..n]) < n {
        refused(Refusal::Unreadable);
        return None;
    }
    Some(step(s, kind, &body))
}

// Nothing says that the input ends, so the turns are counted, up to a number that no run reaches.
fn main() {
    let mut s = fresh();
    for _ in 0..u64::MAX {
        let Some(next) = record(s) else {
            return;
        };
        s = next;
    }
}
