// Windows and blocks of a diary's calendar, one at a time (01, the replies of 'Window or block'). A run of them is added by
// `timeline_loader`.
#![tactic(auto)]

ghost use Rattle.std.specs.Prelude.{◌≡◌, true, IfOk};
ghost use Rattle.calendar.specs.Replies.{added_of};
ghost use Rattle.calendar.specs.Valid as calendar;
ghost use Rattle.calendar.specs.Add.{add_window, add_block};
ghost use Rattle.timeline.specs.Replies.{booked_of};
ghost use Rattle.timeline.specs.Valid.{valid};
ghost use Rattle.timeline.specs.Book.{calendar_reply};

use calendar::{Calendar, Refusal};
use timeline::{Booked, ResourceTimeline};

// The diary's reply, given its calendar's: 15 a diary that breaks the rules, then the calendar's number.
#[tactic(auto, unfolding(timeline::specs::Book::calendar_reply, timeline::specs::Diary::with_calendar))]
pub fn calendar_reply(
    t: ResourceTimeline,
    added: Result<Calendar, Refusal>,
) -> Result<ResourceTimeline, Refusal>
    ensures value { booked_of t result ≡ calendar_reply t (added_of t.calendar added) }
    ensures timeline_value { IfOk result (λ d. valid t ≡ true → IfOk added (λ c. calendar.valid c ≡ true) → valid d ≡ true) }
{
    if !timeline::is_valid(t) {
        return Err(Refusal::Invalid);
    }
    let calendar = added?;
    Ok(ResourceTimeline { calendar, ..t })
}

// The same as a struct of both, as `book` answers, for a caller that has a number of its own, 0 for none, and a calendar beside it.
pub fn calendar_booked(t: ResourceTimeline, refusal: u8, given: Calendar) -> Booked
    ensures value { result ≡ calendar_reply t (record { refusal = refusal; calendar = given }) }
    ensures timeline_value { valid t ≡ true → calendar.valid given ≡ true → valid result.timeline ≡ true }
{
    if !timeline::is_valid(t) {
        return Booked {
            refusal: 15,
            timeline: t,
        };
    }
    Booked {
        refusal,
        timeline: ResourceTimeline {
            calendar: given,
            ..t
        },
    }
}

// Adds a window to the diary's calendar, or refuses as the calendar does.
pub fn add_window(t: ResourceTimeline, start: u64, end: u64) -> Result<ResourceTimeline, Refusal>
    ensures value { booked_of t result ≡ calendar_reply t (add_window t.calendar start end) }
    ensures timeline_value { IfOk result (λ d. valid t ≡ true → valid d ≡ true) }
{
    calendar_reply(t, t.calendar.add_window(start, end))
}

// Adds a block to the diary's calendar, or refuses as the calendar does.
pub fn add_block(t: ResourceTimeline, start: u64, end: u64) -> Result<ResourceTimeline, Refusal>
    ensures value { booked_of t result ≡ calendar_reply t (add_block t.calendar start end) }
    ensures timeline_value { IfOk result (λ d. valid t ≡ true → valid d ≡ true) }
{
    calendar_reply(t, t.calendar.add_block(start, end))
}
