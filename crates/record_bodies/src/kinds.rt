// The kinds of records (docs/RECORDS.md), and how long the body of each is.
ghost use Rattle.std.specs.Prelude.{◌≡◌, ◌+◌, ◌≤◌, ◌<◌, length, MatchOption};
ghost use Rattle.record_bodies.specs.Bodies.{diary_len, fixed_len};
ghost use Rattle.record_bodies.specs.Kinds.{change_number, diary_number, entry_number, part_number, board_number};
ghost use Rattle.record_bodies.specs.Kinds.{ChangeOf, DiaryKindOf, BoardKindOf, BodyOf};

// A byte that is the number of no kind.
#[derive(Clone, Copy)]
pub struct UnknownKind;

// What changes a diary, kinds 1 to 4.
#[derive(Clone, Copy)]
pub enum Change {
    Capacity,
    Window,
    Block,
    Booking,
}

// A diary's kinds, 1 to 6: a change, or an ask.
#[derive(Clone, Copy)]
pub enum DiaryKind {
    Change(Change),
    Fit,
    Resumable,
}

// An entry of a board, kinds 17 to 20.
#[derive(Clone, Copy)]
pub enum Entry {
    Matrix,
    Transition,
    Initial,
    Transport,
}

// A part of an order, kinds 22 to 24.
#[derive(Clone, Copy)]
pub enum Part {
    Requirement,
    Speed,
    Durations,
}

// The kinds of a board and an order: a change of the diary in hand, 16 a resource, 17 to 20, 21 an order, 22 to 24.
#[derive(Clone, Copy)]
pub enum BoardKind {
    Change(Change),
    Resource,
    Entry(Entry),
    Order,
    Part(Part),
}

impl TryFrom<u8> for Change {
    type Error = UnknownKind;

    ghost try_from_gives = { ChangeOf };

    fn try_from(kind: u8) -> Result<Change, UnknownKind> {
        match kind {
            1 => Ok(Change::Capacity),
            2 => Ok(Change::Window),
            3 => Ok(Change::Block),
            4 => Ok(Change::Booking),
            _ => Err(UnknownKind),
        }
    }
}

impl Change {
    #[tactic(auto, unfolding(crate::specs::Bodies::diary_len))]
    fn len(self) -> usize
        ensures { (result ≡ diary_len (change_number self)) × (0 < result) }
    {
        match self {
            Change::Capacity => 4,
            Change::Window | Change::Block => 16,
            Change::Booking => 20,
        }
    }
}

impl DiaryKind {
    // How many bytes the body has.
    #[tactic(auto, unfolding(crate::specs::Bodies::diary_len))]
    pub fn len(self) -> usize
        ensures { (result ≡ diary_len (diary_number self)) × (0 < result) }
    {
        match self {
            DiaryKind::Change(change) => change.len(),
            DiaryKind::Fit | DiaryKind::Resumable => 20,
        }
    }
}

impl TryFrom<u8> for DiaryKind {
    type Error = UnknownKind;

    ghost try_from_gives = { DiaryKindOf };

    #[tactic(auto, using(crate::proofs::Lengths::no_diary))]
    fn try_from(kind: u8) -> Result<DiaryKind, UnknownKind> {
        match kind {
            5 => Ok(DiaryKind::Fit),
            6 => Ok(DiaryKind::Resumable),
            _ => Ok(DiaryKind::Change(Change::try_from(kind)?)),
        }
    }
}

impl Entry {
    #[tactic(auto, unfolding(crate::specs::Bodies::diary_len, crate::specs::Bodies::fixed_len))]
    fn len(self) -> usize
        ensures { (result ≡ fixed_len (entry_number self)) × (0 < result) }
    {
        match self {
            Entry::Matrix => 17,
            Entry::Transition => 11,
            Entry::Initial | Entry::Transport => 10,
        }
    }
}

impl Part {
    #[tactic(auto, unfolding(crate::specs::Bodies::diary_len, crate::specs::Bodies::fixed_len))]
    fn len(self) -> usize
        ensures { (result ≡ fixed_len (part_number self)) × (0 < result) }
    {
        match self {
            Part::Requirement => 19,
            Part::Speed => 9,
            Part::Durations => 25,
        }
    }
}

// A length, or nothing where fewer bytes are left.
pub fn whole(rest: usize, len: usize) -> Option<usize>
    ensures { MatchOption result (rest < len) (λ n. (n ≡ len) × (len ≤ rest)) }
{
    (len <= rest).then_some(len)
}

impl BoardKind {
    // How many bytes the body has that begins at `at`, `end` being the end of the input: nothing for a cut body.
    // (An end beside the slice: the definition `body_len` takes it.)
    pub fn body_len(self, bytes: &[u8], at: usize, end: usize) -> Option<usize>
        requires { (at ≤ end) × (end ≤ length bytes.now) }
        ensures { BodyOf (board_number self) bytes.now at end result }
    {
        let rest = end - at;
        match self {
            BoardKind::Change(change) => whole(rest, change.len()),
            BoardKind::Resource => {
                let count = bytes[at..end].get(10)?;
                whole(rest, 11 + usize::from(*count))
            }
            BoardKind::Entry(entry) => whole(rest, entry.len()),
            BoardKind::Order => whole(rest, 38),
            BoardKind::Part(part) => whole(rest, part.len()),
        }
    }
}

impl TryFrom<u8> for BoardKind {
    type Error = UnknownKind;

    ghost try_from_gives = { BoardKindOf };

    #[tactic(auto, using(crate::proofs::Lengths::no_board))]
    fn try_from(kind: u8) -> Result<BoardKind, UnknownKind> {
        match kind {
            16 => Ok(BoardKind::Resource),
            17 => Ok(BoardKind::Entry(Entry::Matrix)),
            18 => Ok(BoardKind::Entry(Entry::Transition)),
            19 => Ok(BoardKind::Entry(Entry::Initial)),
            20 => Ok(BoardKind::Entry(Entry::Transport)),
            21 => Ok(BoardKind::Order),
            22 => Ok(BoardKind::Part(Part::Requirement)),
            23 => Ok(BoardKind::Part(Part::Speed)),
            24 => Ok(BoardKind::Part(Part::Durations)),
            _ => Ok(BoardKind::Change(Change::try_from(kind)?)),
        }
    }
}
