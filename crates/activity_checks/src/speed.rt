// Speeds of an order's timings (01, 'Placing': 8).
ghost use Rattle.std.specs.Prelude.{◌≡◌};
ghost use Rattle.cells.specs.Every.{every};
ghost use Rattle.activity.specs.Check.{timing_speed};

use activity::ResourceTiming;
use activity_speeds::is_speed;

// The speed, where the timing has one, is taken.
fn timing_speed(timing: ResourceTiming) -> bool
    ensures { result ≡ timing_speed timing }
{
    match timing {
        ResourceTiming::Speed(s) => is_speed(s),
        ResourceTiming::Nothing | ResourceTiming::Duration(_) => true,
    }
}

// The speeds of all timings are taken.
pub fn speeds_right(timings: [ResourceTiming; 16]) -> bool
    ensures { result ≡ every timing_speed timings }
{
    timings.iter().all(|t| timing_speed(*t))
}
