// What can be read of a diary (`capacity`, `booked_ms`, `latest_end` in scheduler/timeline.rs).
#![tactic(auto)]

ghost use Rattle.std.specs.Prelude.{◌≡◌};
ghost use Rattle.timeline_readings.specs.Reading.{read_of, read, capacity_read, booked_read, latest_read};

use calendar::Refusal;
use timeline::ResourceTimeline;

// A number read of a diary, or refuses: 15 a diary that breaks the rules.
#[tactic(auto, unfolding(crate::specs::Reading::read))]
fn checked(timeline: ResourceTimeline, n: u64) -> Result<u64, Refusal>
    ensures { read_of result ≡ read timeline n }
{
    if timeline::is_valid(timeline) {
        Ok(n)
    } else {
        Err(Refusal::Invalid)
    }
}

// Units that can be booked at once, or refuses: 15 a diary that breaks the rules.
pub fn capacity(timeline: ResourceTimeline) -> Result<u64, Refusal>
    ensures { read_of result ≡ capacity_read timeline }
{
    checked(timeline, u64::from(timeline.capacity))
}

// The booked total, or refuses: 15 a diary that breaks the rules.
pub fn booked_ms(timeline: ResourceTimeline) -> Result<u64, Refusal>
    ensures { read_of result ≡ booked_read timeline }
{
    checked(timeline, timeline.booked)
}

// The latest end, 0 where there is no booking, or refuses: 15 a diary that breaks the rules. (Checked first, and not by `checked`: of
// such a diary the cell cannot be read.)
pub fn latest_end(timeline: ResourceTimeline) -> Result<u64, Refusal>
    ensures { read_of result ≡ latest_read timeline }
{
    if !timeline::is_valid(timeline) {
        return Err(Refusal::Invalid);
    }
    if timeline.len == 0 {
        return Ok(0);
    }
    Ok(timeline.latest[timeline.len - 1])
}
