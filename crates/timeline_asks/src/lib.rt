// Asking a diary: the least start of an unbroken span and of resumable work (scheduler/timeline.rs; 01, the replies of 'Asking a
// diary').
#![tactic(auto)]

ghost use Rattle.std.specs.Prelude.{◌≡◌};
ghost use Rattle.timeline.specs.Ask.{ask_refusal, fit_reply, resumable_reply};
ghost use Rattle.calendar.specs.Replies.{refused};
ghost use Rattle.timeline_asks.specs.Answers.{reply_of};

use calendar::Refusal;
use calendar::limits::{LAST_ASKED, LONGEST_SPAN, MOST_UNITS};
use timeline::ResourceTimeline;

// Whether a diary can be asked by these numbers, or why not.
#[tactic(auto, unfolding(timeline::specs::Ask::ask_refusal))]
fn check_ask(from: u64, span: u64, units: u32) -> Result<(), Refusal>
    ensures { refused result ≡ ask_refusal from span units }
{
    if from > LAST_ASKED || span > LONGEST_SPAN {
        return Err(Refusal::OutOfRange);
    }
    if !(1..=MOST_UNITS).contains(&units) {
        return Err(Refusal::Units);
    }
    Ok(())
}

// The least start of an unbroken span with its end, or refuses: 15 a diary that breaks the rules, 1 from or span, 3 units.
pub fn earliest_fit(
    t: ResourceTimeline,
    from: u64,
    span: u64,
    units: u32,
) -> Result<Option<(u64, u64)>, Refusal>
    ensures { reply_of result ≡ fit_reply t from span units }
{
    if !timeline::is_valid(t) {
        return Err(Refusal::Invalid);
    }
    check_ask(from, span, units)?;
    match timeline_fit::earliest_fit(t, from, span, units) {
        Some(start) => Ok(Some((start, start + span))),
        None => Ok(None),
    }
}

// The least start of resumable work with its end, or refuses as for an unbroken span.
pub fn earliest_resumable(
    t: ResourceTimeline,
    from: u64,
    work: u64,
    units: u32,
) -> Result<Option<(u64, u64)>, Refusal>
    ensures { reply_of result ≡ resumable_reply t from work units }
{
    if !timeline::is_valid(t) {
        return Err(Refusal::Invalid);
    }
    check_ask(from, work, units)?;
    // By cases, though each is told as it is: a wrong start told is then refused for what it is (start_as_asked; docs/DESIGN-PASS.md).
    match timeline_resume::earliest_resumable(t, from, work, units) {
        Some((start, end)) => Ok(Some((start, end))),
        None => Ok(None),
    }
}
