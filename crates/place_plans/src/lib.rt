// What an order needs of one resource alone, and what an entry of it takes from the board, as numbers (scheduler/simple.rs, the head of
// the loop over the serving resources in `place_activity`; 01, 'Choosing', its first half).
#![tactic(auto)]

ghost use Rattle.std.specs.Prelude.{◌≡◌, ◌≤◌, true, replicate};
ghost use Rattle.activity.specs.Lawful.{Lawful};
ghost use Rattle.board.specs.Valid.{resource_right};
ghost use Rattle.place_plans.specs.Plans.{blank_plan, plan_with, arrival_by, InReach};

use activity::Activity;
use board::Resource;

// A resource with its companions, its span, process time and arrival, and the setup by its matrix where it has one: none of them changes
// from round to round. The companions are the first `count` of their cells, as those of a Resource are.
#[derive(Clone, Copy, Default)]
pub struct Plan {
    pub number: u8,
    pub kind: u8,
    pub skills: u64,
    pub companions: [u8; 4],
    pub count: usize,
    pub span: u64,
    pub process: u64,
    pub arrival: u64,
    pub setup: Option<u64>,
}

// Nothing is planned yet.
pub fn no_plans() -> [Plan; 16]
    ensures { result ≡ replicate 16 blank_plan }
{
    [Plan::default(); 16]
}

// The plan of a resource, from ready on.
pub fn plan_of(r: Resource, a: Activity, ready: u64, transport: &[u64; 256]) -> Plan
    requires { (resource_right r ≡ true) × Lawful a.duration a.timings × (a.category ≤ 15) × InReach transport.now a ready r }
    ensures { result ≡ plan_with a r (arrival_by transport.now a ready r) }
{
    let companions = r.companions; // a variable: an array goes into a struct from one
    let d = activity::basics::duration_on(a.duration, a.timings, [r.number; 8], 1);
    let setup = board_setups::setup_ms(r.matrix, r.last, a.category, d.setup);
    Plan {
        number: r.number,
        kind: r.kind,
        skills: r.skills,
        companions,
        count: r.count,
        span: setup + d.process + d.teardown,
        process: d.process,
        arrival: ready + board_setups::transport_between(transport, a.origins, r.number),
        setup: r
            .matrix
            .present
            .then_some(board_setups::setup_ms(r.matrix, r.last, a.category, 0)),
    }
}
