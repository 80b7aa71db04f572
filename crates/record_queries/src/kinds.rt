// The kinds of records and asks that `run_board` knows (tests/beside/README.md), and how long the body of each is.
ghost use Rattle.std.specs.Prelude.{◌≡◌, ◌<◌, ◌≤◌, length};
ghost use Rattle.record_queries.specs.Asks.{ask_len};
ghost use Rattle.record_queries.specs.Kinds.{ask_number, QueryKindOf, BodyOf};

use record_bodies::{BoardKind, UnknownKind, whole};

// Asks, kinds 40 to 43.
#[derive(Clone, Copy)]
pub enum Ask {
    Durations,
    Setup,
    Transport,
    Serving,
}

// The kinds of a board and an order, and asks. OfferKind of record_offer has the same shape over other kinds: a generic type for both
// would leave each its try_from and its lengths, and be no plainer.
#[derive(Clone, Copy)]
pub enum QueryKind {
    Board(BoardKind),
    Ask(Ask),
}

impl Ask {
    #[tactic(auto, unfolding(crate::specs::Asks::ask_len))]
    fn len(self) -> usize
        ensures { (result ≡ ask_len (ask_number self)) × (0 < result) }
    {
        match self {
            Ask::Durations => 9,
            Ask::Setup => 11,
            Ask::Transport => 3,
            Ask::Serving => 12,
        }
    }
}

impl TryFrom<u8> for QueryKind {
    type Error = UnknownKind;

    ghost try_from_gives = { QueryKindOf };

    fn try_from(kind: u8) -> Result<QueryKind, UnknownKind> {
        match kind {
            40 => Ok(QueryKind::Ask(Ask::Durations)),
            41 => Ok(QueryKind::Ask(Ask::Setup)),
            42 => Ok(QueryKind::Ask(Ask::Transport)),
            43 => Ok(QueryKind::Ask(Ask::Serving)),
            _ => Ok(QueryKind::Board(BoardKind::try_from(kind)?)),
        }
    }
}

impl QueryKind {
    // How many bytes the body has that begins at `at`, `end` being the end of the input: nothing for a cut body.
    #[tactic(auto, unfolding(crate::specs::Asks::run_len, crate::specs::Asks::ask_len, record_bodies::specs::Bodies::whole))]
    pub fn body_len(self, bytes: &[u8], at: usize, end: usize) -> Option<usize>
        requires { (at ≤ end) × (end ≤ length bytes.now) }
        ensures { BodyOf self bytes.now at end result }
    {
        match self {
            QueryKind::Board(kind) => kind.body_len(bytes, at, end),
            QueryKind::Ask(ask) => whole(end - at, ask.len()),
        }
    }
}
