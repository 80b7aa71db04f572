// What is in hand while records are read: a diary, an order, a board; and what it is at the start (docs/RECORDS.md).
#![tactic(auto)]

ghost use Rattle.std.specs.Prelude.{◌≡◌};
ghost use Rattle.record_desk.specs.Desk.{empty_order, empty_desk};

use activity::order::order_with;
use activity::{Activity, ActivityDuration};
use board::Board;
use calendar::Calendar;
use timeline::ResourceTimeline;

// What is in hand: a diary, an order, a board.
#[derive(Clone, Copy)]
pub struct Desk {
    pub timeline: ResourceTimeline,
    pub activity: Activity,
    pub board: Board,
}

// An order of nothing.
#[tactic(auto, unfolding(crate::specs::Desk::empty_order))]
fn empty_order() -> Activity
    ensures { result ≡ empty_order }
{
    let none = ActivityDuration {
        setup: 0,
        process: 0,
        teardown: 0,
    };
    order_with(0, none, false, None, Calendar::new(), 0)
}

impl Desk {
    // An empty diary of capacity 1, an order of nothing, an empty board.
    #[tactic(auto, unfolding(crate::specs::Desk::empty_desk))]
    pub fn new() -> Desk
        ensures { result ≡ empty_desk }
    {
        Desk {
            timeline: ResourceTimeline::new(1),
            activity: empty_order(),
            board: Board::new(),
        }
    }
}
