// What a record of a stream does to a diary and what it prints (01, 'Program slot'). Everything that `slot` decides is here.
#![tactic(auto)]

ghost use Rattle.std.specs.Prelude.{◌≡◌, ◌+◌, ◌≤◌, ◌<◌, length};
ghost use Rattle.record_bodies.specs.Bodies.{diary_len};
ghost use Rattle.record_bodies.specs.Kinds.{change_number, diary_number};
ghost use Rattle.record_bodies.specs.Numbers.{little};
ghost use Rattle.record_diary.specs.Records.{stepped_of, turn_of, capacity_reply, books, asks, record_does, turn_reply};
ghost use Rattle.timeline.specs.Book.{book_reply};
ghost use Rattle.timeline.specs.Replies.{booked_of};
ghost use Rattle.timeline_asks.specs.Answers.{reply_of};

use calendar::Refusal;
use record_bodies::{Change, DiaryKind, Turn, last, number};
use record_diary_text::Line;
use timeline::ResourceTimeline;

// What a record does: the diary afterwards, and what it prints.
#[derive(Clone, Copy)]
pub struct DiaryStepped {
    pub timeline: ResourceTimeline,
    pub line: Line,
}

// A record read from a run of bytes, its reply a line.
pub type DiaryTurn = Turn<ResourceTimeline, Line>;

// Kind 1: a new diary, or OutOfRange (1) for a capacity above 2^31 - 1.
#[tactic(auto, unfolding(crate::specs::Records::capacity_reply, crate::specs::Records::books))]
fn renew(timeline: ResourceTimeline, capacity: u64) -> Result<ResourceTimeline, Refusal>
    ensures { books (booked_of timeline result) ≡ capacity_reply timeline capacity }
{
    if capacity > 2147483647 {
        return Err(Refusal::OutOfRange);
    }
    Ok(ResourceTimeline::new(capacity as i32))
}

// Kind 4: a booking.
fn booking(timeline: ResourceTimeline, bytes: &[u8], at: usize) -> Result<ResourceTimeline, Refusal>
    requires { at + 20 ≤ length bytes.now }
    ensures { booked_of timeline result
        ≡ book_reply timeline (little bytes.now at 8) (little bytes.now (at + 8) 8) (little bytes.now (at + 16) 4) }
{
    let units = number(bytes, at + 16, 4) as u32;
    timeline.try_book(number(bytes, at, 8), number(bytes, at + 8, 8), units)
}

// Kinds 1 to 4: what changes the diary. What is refused changes nothing.
#[tactic(auto, unfolding(crate::specs::Records::record_does, record_bodies::specs::Bodies::diary_len))]
pub fn change(
    timeline: ResourceTimeline,
    change: Change,
    bytes: &[u8],
    at: usize,
) -> Result<ResourceTimeline, Refusal>
    requires { at + diary_len (change_number change) ≤ length bytes.now }
    ensures { books (booked_of timeline result) ≡ record_does timeline (change_number change) bytes.now at }
{
    match change {
        Change::Capacity => renew(timeline, number(bytes, at, 4)),
        Change::Window => {
            timeline_windows::add_window(timeline, number(bytes, at, 8), number(bytes, at + 8, 8))
        }
        Change::Block => {
            timeline_windows::add_block(timeline, number(bytes, at, 8), number(bytes, at + 8, 8))
        }
        Change::Booking => booking(timeline, bytes, at),
    }
}

// A change prints only where it is refused.
#[tactic(auto, using(calendar::specs::Laws::Refusals::numbered), unfolding(crate::specs::Records::stepped_of, crate::specs::Records::books, record_diary_text::specs::Lines::line_of))]
fn told(timeline: ResourceTimeline, changed: Result<ResourceTimeline, Refusal>) -> DiaryStepped
    ensures { stepped_of result ≡ books (booked_of timeline changed) }
{
    match changed {
        Ok(timeline) => DiaryStepped {
            timeline,
            line: Line::Nothing,
        },
        Err(refusal) => DiaryStepped {
            timeline,
            line: Line::Refused(refusal),
        },
    }
}

// The reply to an ask prints, and the diary stays.
#[tactic(auto, unfolding(crate::specs::Records::stepped_of, crate::specs::Records::asks, record_diary_text::specs::Lines::line_of))]
fn asked(timeline: ResourceTimeline, answer: Result<Option<(u64, u64)>, Refusal>) -> DiaryStepped
    ensures { stepped_of result ≡ asks timeline (reply_of answer) }
{
    let line = match answer {
        Ok(Some((start, end))) => Line::Fit(start, end),
        Ok(None) => Line::None,
        Err(refusal) => Line::Refused(refusal),
    };
    DiaryStepped { timeline, line }
}

// The body of an ask: from, span, units.
fn ask_body(bytes: &[u8], at: usize) -> (u64, u64, u32)
    requires { at + 20 ≤ length bytes.now }
    ensures { (result.0 ≡ little bytes.now at 8) × (result.1 ≡ little bytes.now (at + 8) 8) × (result.2 ≡ little bytes.now (at + 16) 4) }
{
    let from = number(bytes, at, 8);
    let span = number(bytes, at + 8, 8);
    let units = number(bytes, at + 16, 4) as u32;
    (from, span, units)
}

// What one record does, its body beginning at `at`. (Each change is told by itself: told behind `change`, whose match puts the diary into
// one Result more, a stream of new diaries took a third longer.)
#[tactic(auto, unfolding(crate::specs::Records::record_does, record_bodies::specs::Bodies::diary_len))]
pub fn step(timeline: ResourceTimeline, kind: DiaryKind, bytes: &[u8], at: usize) -> DiaryStepped
    requires { at + diary_len (diary_number kind) ≤ length bytes.now }
    ensures { stepped_of result ≡ record_does timeline (diary_number kind) bytes.now at }
{
    match kind {
        DiaryKind::Change(Change::Capacity) => {
            told(timeline, renew(timeline, number(bytes, at, 4)))
        }
        DiaryKind::Change(Change::Window) => told(
            timeline,
            timeline_windows::add_window(timeline, number(bytes, at, 8), number(bytes, at + 8, 8)),
        ),
        DiaryKind::Change(Change::Block) => told(
            timeline,
            timeline_windows::add_block(timeline, number(bytes, at, 8), number(bytes, at + 8, 8)),
        ),
        DiaryKind::Change(Change::Booking) => told(timeline, booking(timeline, bytes, at)),
        DiaryKind::Fit => {
            let (from, span, units) = ask_body(bytes, at);
            asked(
                timeline,
                timeline_asks::earliest_fit(timeline, from, span, units),
            )
        }
        DiaryKind::Resumable => {
            let (from, work, units) = ask_body(bytes, at);
            asked(
                timeline,
                timeline_asks::earliest_resumable(timeline, from, work, units),
            )
        }
    }
}

// The record that begins at `at`, `len` being the end of the input: nothing where the input ends here, Unreadable (9) for an unknown
// kind or a cut body. (An end beside the slice: the definition `turn_reply` takes it, and the promise is for every end.)
#[tactic(auto, unfolding(crate::specs::Records::turn_of, crate::specs::Records::turn_reply, crate::specs::Records::stepped_of, record_diary_text::specs::Lines::line_of))]
pub fn record(timeline: ResourceTimeline, bytes: &[u8], at: usize, len: usize) -> DiaryTurn
    requires { (at ≤ len) × (len ≤ length bytes.now) }
    ensures result_value { turn_of result ≡ turn_reply timeline bytes.now at len }
    ensures at_le_len { result.at ≤ len }
{
    if at == len {
        return last(timeline, Line::Nothing, at);
    }
    let Ok(kind) = DiaryKind::try_from(bytes[at]) else {
        return last(timeline, Line::Refused(Refusal::Unreadable), at);
    };
    let n = kind.len();
    if len - at <= n {
        return last(timeline, Line::Refused(Refusal::Unreadable), at);
    }
    let DiaryStepped { timeline, line } = step(timeline, kind, bytes, at + 1);
    Turn {
        state: timeline,
        reply: line,
        at: at + 1 + n,
        more: true,
    }
}
