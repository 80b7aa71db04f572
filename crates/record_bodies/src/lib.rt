// The body of a record (docs/RECORDS.md): the numbers in it, and how long it is, of a diary's kinds and of those of a board and an order.
// A body goes as `(bytes, at)`: the definitions (`little`, `len_of`) speak of the whole run of bytes and a place in it.
#![tactic(auto)]

mod kinds;
mod numbers;
mod turns;

pub use kinds::{BoardKind, Change, DiaryKind, Entry, Part, UnknownKind, whole};
pub use numbers::number;
pub use turns::{Turn, last};
