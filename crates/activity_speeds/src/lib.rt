// Speeds are doubles: which are taken, and the process time at one, rounded from the bits (01, 'Durations, setups, transport'; the
// quotient of the Rust's `timed_duration` in models/activity.rs).
#![tactic(auto)]

ghost use Rattle.std.specs.Prelude.{◌≡◌, ◌≤◌, ◌^◌};
ghost use Rattle.activity_speeds.specs.Speeds.{round_away, is_speed, process_at, UpTo, WithinPower};

const SIGN: u64 = 9223372036854775808;

const LEAD: u64 = 4503599627370496;

// From 0.25 to 4. A NaN fails the first test.
pub fn is_speed(s: f64) -> bool
    ensures { result ≡ is_speed s }
{
    s >= 0.25 && s <= 4.0
}

// The nearest whole number to x, a tie away from zero: the digits of x, cut where its exponent says, with a half added first.
fn round_half_away(x: f64) -> u64
    requires { UpTo (2 ^ 52) x }
    ensures { result ≡ round_away x }
{
    let bits = f64::to_bits(x);
    let field = bits % SIGN / LEAD;
    let digits = bits % LEAD;
    if field < 1022 {
        return 0;
    }
    let drop = 1075 - field;
    let whole = LEAD + digits;
    if drop == 0 {
        return whole;
    }
    (whole + (1 << (drop - 1))) >> drop
}

// The process time at a product of up to eight speeds.
pub fn process_at(base: u64, speed: f64) -> u64
    requires base_bound { base ≤ 2 ^ 36 }
    requires within_power { WithinPower 8 speed }
    ensures { result ≡ process_at base speed }
{
    if speed == 1.0 {
        return base;
    }
    round_half_away(base as f64 / speed)
}
