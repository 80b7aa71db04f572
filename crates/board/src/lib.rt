// A board: resources in board order with their companions, diaries, transition matrices and last categories, and the transport between
// them (models/resource.rs, models/constraint.rs; 01, setups and transport, and the board of 'Placing'). Its rules are checked by the
// crate `board_rules`.
#![tactic(auto)]

ghost use Rattle.std.specs.Prelude.{◌≡◌};
ghost use Rattle.board.specs.Valid.{duration_right, entry_right};
ghost use Rattle.board.specs.Resources.{blank_matrix, blank_resource, with_last};
ghost use Rattle.board.specs.Enter.{empty_board};

use timeline::ResourceTimeline;

// A duration, and an entry of a matrix, is at most 2^36: `LONGEST_DURATION` of these signed cells.
const LONGEST: i64 = 68719476736;

// The setups of a resource by category: 16 * last + this, and the first entries; -1 is an absent entry (as 01 has it, so that the rules
// speak of other negative entries too). Not present: 0 throughout. One row behind the other, as the definition
// `matrix_setup` reads them.
// A flag, and no Option of a matrix: 01, 15 refuses a matrix that is not there and not 0 throughout, so that such values are spoken of.
#[derive(Clone, Copy)]
pub struct TransitionMatrix {
    pub present: bool,
    pub default: i64,
    pub initial: i64,
    pub transitions: [i64; 256],
    pub initials: [i64; 16],
}

// A resource: `count` companions in order, the cells past them 0; `last` is the category that was last on it.
// A count beside the cells, and no slice: a board is a plain value, and its rules (01, 15) speak of the cells past the count.
#[derive(Clone, Copy)]
pub struct Resource {
    pub number: u8,
    pub kind: u8,
    pub skills: u64,
    pub companions: [u8; 4],
    pub count: usize,
    pub timeline: ResourceTimeline,
    pub matrix: TransitionMatrix,
    pub last: Option<u8>,
}

// The resources in board order, the cells past `len` 0; the transport by 16 * from + to, as the definition `valid` reads it.
#[derive(Clone, Copy)]
pub struct Board {
    pub resources: [Resource; 16],
    pub len: usize,
    pub transport: [u64; 256],
}

// A duration, 0 to 2^36.
#[tactic(auto, unfolding(crate::specs::Valid::duration_right))]
pub fn duration_right(ms: i64) -> bool
    ensures { result ≡ duration_right ms }
{
    ms >= 0 && ms <= LONGEST
}

// An entry of a matrix: a duration, or -1.
#[tactic(auto, unfolding(crate::specs::Valid::entry_right))]
pub fn entry_right(ms: i64) -> bool
    ensures { result ≡ entry_right ms }
{
    ms >= -1 && ms <= LONGEST
}

// No matrix.
pub fn blank_matrix() -> TransitionMatrix
    ensures { result ≡ blank_matrix }
{
    TransitionMatrix {
        present: false,
        default: 0,
        initial: 0,
        transitions: [0; 256],
        initials: [0; 16],
    }
}

// A cell past the length.
pub fn blank_resource() -> Resource
    ensures { result ≡ blank_resource }
{
    Resource {
        number: 0,
        kind: 0,
        skills: 0,
        companions: [0; 4],
        count: 0,
        timeline: timeline::blank(),
        matrix: blank_matrix(),
        last: None,
    }
}

// The resource with another last category.
pub fn with_last(r: Resource, last: Option<u8>) -> Resource
    ensures { result ≡ with_last last r }
{
    Resource { last, ..r }
}

impl Board {
    // A board with no resource.
    #[tactic(auto, unfolding(crate::specs::Enter::empty_board))]
    pub fn new() -> Board
        ensures { result ≡ empty_board }
    {
        Board {
            resources: [blank_resource(); 16],
            len: 0,
            transport: [0; 256],
        }
    }
}
