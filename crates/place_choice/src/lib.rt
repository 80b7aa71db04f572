// Choosing: the instant at which every requirement has enough resources that can start then, and those held (the first half of
// `place_activity` in scheduler/simple.rs; 01, 'Choosing').
// Searched are the instants from ready on, round by round: a round leads to the greatest start held, until it stays. Each new instant is
// an arrival or an event on some diary, of which there are at most 2,064, so the rounds end (`instants-few`, `instants-fall` in
// scheduler's Theorems/Counting.antt), and the Rust's 10,000 are never met. In a round at most 64 answers are asked for, one of each
// resource to each requirement, with its companions, and only where the last answer has been passed.
// Reference: the Rust's own, the fixed point of the serial schedule generation scheme (`place_activity`).
#![tactic(auto)]

ghost use Rattle.std.specs.Prelude.{◌≡◌, ℕ, ◌≤◌, IfSome, true};
ghost use Rattle.activity.specs.Check.{activity_refusal};
ghost use Rattle.board.specs.Valid.{valid};
ghost use Rattle.scheduler.specs.Choosing.{choosing};
ghost use Rattle.board.specs.Places.{Known};
ghost use Rattle.timeline_fit.specs.Steps.{start_of};
ghost use Rattle.place_rounds.specs.Tables.{found_at, requirement_at};
ghost use Rattle.place_rounds.specs.Rounds.{choice_of, Chosen};
ghost use Rattle.place_choice.specs.Seeking.{Seeks};

use activity::Activity;
use board::Board;
use calendar::limits::NEVER;
use place_companions::member_of;
use place_plans::Plan;
use place_rounds::Choice;
use std::ops::ControlFlow;

// The least start of the resource at place i for requirement j, from t on: it is asked with its companions one after another.
fn least_start(
    b: &Board,
    a: &Activity,
    p: &Plan,
    i: usize,
    j: usize,
    places: &[usize; 16],
    t: u64,
) -> Option<u64>
    requires { Known b.now places.now × ((ready : ℕ) × Seeks b.now a.now ready p.now i j t) }
    ensures { (ready : ℕ) → Seeks b.now a.now ready p.now i j t
        → start_of result ≡ found_at b.now a.now ready (requirement_at a.now j) t i }
{
    let mut g = place_companions::unasked();
    // A `while`: the asking goes on from one to the next, and back to the first where the start has moved on.
    while g.next <= p.count {
        let m = member_of(a.requirements[j], *p, i, places, t, g);
        let place = m.place?;
        let s = place_companions::start_on(
            b.resources[place].timeline,
            a.resumable,
            p.span,
            m.units,
            m.from,
        );
        g = place_companions::answered(g.next, m.from, s)?;
    }
    Some(g.start)
}

// One pass over the board for the plans, then rounds until t stays: in each, what the resources answer to each requirement from t on is
// asked where it is not known.
pub fn choose(b: Board, a: Activity, ready: u64, places: &[usize; 16]) -> Option<Choice>
    requires { (valid b ≡ true) × (activity_refusal a ready ≡ 0) × (1 ≤ a.len) × Known b places.now }
    ensures { (choice_of b result ≡ choosing b a ready) × IfSome result (Chosen b a ready) }
{
    let mut plans = place_plans::no_plans();
    for i in 0..b.len {
        plans[i] = place_plans::plan_of(b.resources[i], a, ready, &b.transport);
    }
    // Two flat tables, walked cell by cell, asked 1 and start 0 where nobody was asked: so `Remembered` has them
    // (place_rounds/specs/Tables).
    let mut asked: [u64; 64] = [1; 64];
    let mut starts: [u64; 64] = [0; 64];
    let mut t = ready;
    'rounds: loop {
        for k in 0..16 * a.len {
            let i = k % 16;
            if place_rounds::is_asked(i, b.len, asked[k], starts[k], t) {
                asked[k] = t;
                starts[k] = least_start(&b, &a, &plans[i], i, k / 16, places, t).unwrap_or(NEVER);
            }
        }
        match place_rounds::settled(t, &plans, &starts, b.len, a) {
            ControlFlow::Break(choice) => return choice,
            ControlFlow::Continue(later) => t = later,
        }
    }
}
