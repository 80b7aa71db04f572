// The kinds of records that `offer` knows (docs/RECORDS.md), and how long the body of each is.
ghost use Rattle.std.specs.Prelude.{◌≤◌, length};
ghost use Rattle.record_offer.specs.Kinds.{OfferKindOf, BodyOf};

use record_bodies::{BoardKind, UnknownKind, whole};

// Those of a board and an order; 25 places, 26 commits. QueryKind of record_queries has the same shape over other kinds: a generic
// type for both would leave each its try_from and its lengths, and be no plainer.
#[derive(Clone, Copy)]
pub enum OfferKind {
    Board(BoardKind),
    Place,
    Commit,
}

impl TryFrom<u8> for OfferKind {
    type Error = UnknownKind;

    ghost try_from_gives = { OfferKindOf };

    #[tactic(auto, unfolding(crate::specs::Offers::offer_len, record_bodies::specs::Bodies::body_len))]
    fn try_from(kind: u8) -> Result<OfferKind, UnknownKind> {
        match kind {
            25 => Ok(OfferKind::Place),
            26 => Ok(OfferKind::Commit),
            _ => Ok(OfferKind::Board(BoardKind::try_from(kind)?)),
        }
    }
}

impl OfferKind {
    // How many bytes the body has that begins at `at`, `end` being the end of the input: nothing for a cut body.
    #[tactic(auto, unfolding(crate::specs::Offers::offer_len, record_bodies::specs::Bodies::whole))]
    pub fn body_len(self, bytes: &[u8], at: usize, end: usize) -> Option<usize>
        requires { (at ≤ end) × (end ≤ length bytes.now) }
        ensures { BodyOf self bytes.now at end result }
    {
        match self {
            OfferKind::Board(kind) => kind.body_len(bytes, at, end),
            OfferKind::Place => whole(end - at, 8),
            OfferKind::Commit => whole(end - at, 20),
        }
    }
}
