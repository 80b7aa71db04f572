// A run of bad input: boards, orders, slates and commitments with random words in random cells, 100,000 times, through `place_activity`
// and `commit`. It checks what 01 says of every reply ('Replies'): 15 before all else, and that a refused call leaves the slate as it
// was. (A refused commitment gives no board.) It prints how often each reply came, and the number of faults.
#![tactic(auto)]

use activity::Activity;
use board::Board;
use calendar::Refusal;
use placing::PlaceReply;
use scheduler::rows::Row;

mod bases;
mod random;
mod spoiling;

ghost use Rattle.std.specs.Prelude.{◌≡◌, ℕ, ◌<◌, ◌≤◌, true, [], slice_index_or};

use random::{next, word};

// How often each reply came; the refusals by their number.
#[derive(Clone, Copy)]
struct Tally {
    runs: u64,
    placed: u64,
    chosen: u64,
    nothing: u64,
    refused: [u64; 16],
    committed: u64,
    rejected: [u64; 16],
    faults: u64,
}

// What is committed: how many entries, from when to when, and the category.
#[derive(Clone, Copy)]
struct Commitment {
    count: usize,
    start: u64,
    end: u64,
    category: u8,
}

// Counts wrap, which no run comes near.
fn more(n: u64) -> u64 {
    n.wrapping_add(1)
}

// One fault more unless it is right.
fn judged(mut t: Tally, right: bool) -> Tally {
    if !right {
        t.faults = more(t.faults);
    }
    t
}

// One refusal more of this number.
fn count(counts: &mut [u64; 16], refusal: Refusal) {
    let n = usize::from(refusal.number());
    counts[n] = more(counts[n]);
}

fn told(mut t: Tally, p: Result<PlaceReply, Refusal>) -> Tally {
    match p {
        Ok(PlaceReply::Placed(_)) => t.placed = more(t.placed),
        Ok(PlaceReply::ChosenNone(_)) => t.chosen = more(t.chosen),
        Ok(PlaceReply::None) => t.nothing = more(t.nothing),
        Err(refusal) => count(&mut t.refused, refusal),
    }
    t
}

// How many rows of the slate a reply has written.
fn written(p: Result<PlaceReply, Refusal>) -> usize {
    match p {
        Ok(PlaceReply::Placed(placed)) => placed.count,
        _ => 0,
    }
}

// The rows from `from` on are the same.
fn same_rows(a: &[Row; 32], b: &[Row; 32], from: usize) -> bool
    ensures { result ≡ true → (k : ℕ) → from ≤ k → k < 32 → slice_index_or a.now k [] ≡ slice_index_or b.now k [] }
{
    for i in from..32 {
        if a[i] != b[i] {
            return false;
        }
    }
    true
}

// What is committed after a placing: the placement, or rows that were on the slate.
fn commitment_of(p: Result<PlaceReply, Refusal>, ready: u64, category: u8, x: u64) -> Commitment {
    match p {
        Ok(PlaceReply::Placed(placed)) => Commitment {
            count: placed.count,
            start: placed.start,
            end: placed.end,
            category,
        },
        _ => Commitment {
            count: (x % 6) as usize,
            start: ready,
            end: ready.wrapping_add(10),
            category,
        },
    }
}

// `n` numbers of a commitment.
fn spoilt_commitment(mut c: Commitment, x: u64, n: u64) -> Commitment {
    let mut y = x;
    for _ in 0..n {
        y = next(y);
        let w = word(next(y));
        match y % 4 {
            0 => c.count = w as usize,
            1 => c.start = w,
            2 => c.end = w,
            _ => c.category = (w % 256) as u8,
        }
    }
    c
}

// How many rows of the slate are lent: 24 or more, or fewer.
fn lent(x: u64) -> usize
    ensures { result ≤ 32 }
{
    if x % 16 == 0 {
        return (x / 64 % 24) as usize;
    }
    (24 + x / 64 % 9) as usize
}

// Places on as many rows as `x` says.
fn place(
    b: Board,
    a: Activity,
    ready: u64,
    slate: &mut [Row; 32],
    x: u64,
) -> Result<PlaceReply, Refusal> {
    placing::place_activity(b, a, ready, &mut slate[..lent(x)])
}

// Commits from as many rows as `x` says.
fn commit(b: Board, slate: &[Row; 32], x: u64, c: Commitment) -> Result<Board, Refusal> {
    committing::commit(b, &slate[..lent(x)], c.count, c.start, c.end, c.category)
}

// What has to hold of a commitment: 15 exactly where the board breaks the rules; accepted, a board that keeps them. A refusal has no
// board to give: the one in hand stays.
fn committed(t: Tally, e: Result<Board, Refusal>, valid: bool) -> Tally {
    let mut t = judged(t, matches!(e, Err(Refusal::Invalid)) == !valid);
    match e {
        Ok(board) => {
            t = judged(t, board_rules::is_valid(board));
            t.committed = more(t.committed);
        }
        Err(refusal) => count(&mut t.rejected, refusal),
    }
    t
}

// The ready time: right, or any word.
fn any_ready(x: u64) -> u64 {
    if x % 16 == 0 {
        word(next(x))
    } else {
        x / 64 % 500
    }
}

// What is spoilt: 0 the board, 1 the order, 2 the slate, 3 the commitment, 4 all of them.
fn spoilt_part(x: u64) -> u64 {
    match x % 8 {
        0 | 1 => 0,
        2 | 3 | 4 => 1,
        5 => 2,
        6 => 3,
        _ => 4,
    }
}

// How many cells of a part are spoilt.
fn cells(x: u64, part: u64) -> u64 {
    match spoilt_part(x) {
        4 => 1,
        spoilt if spoilt == part => 1 + x / 64 % 3,
        _ => 0,
    }
}

// One board, order, slate and commitment, spoilt.
fn run(t: Tally, base: Board, order: Activity, x: u64) -> Tally {
    let b = spoiling::spoilt_board(base, next(x), cells(x, 0));
    let y = next(next(x));
    let a = spoiling::spoilt_order(order, y, cells(x, 1));
    let z = next(y);
    let mut slate = spoiling::spoilt_slate(bases::any_slate(z), z, cells(x, 2));
    let before = slate;
    let w = next(z);
    let ready = any_ready(z);
    let p = place(b, a, ready, &mut slate, w);
    let valid = board_rules::is_valid(b);
    let invalid = !(valid && calendar::is_valid(a.calendar));
    let t = judged(told(t, p), matches!(p, Err(Refusal::Invalid)) == invalid);
    let t = judged(t, same_rows(&before, &slate, written(p)));
    let c = commitment_of(p, ready, a.category, z);
    let e = commit(b, &slate, w, spoilt_commitment(c, w, cells(x, 3)));
    let mut t = committed(t, e, valid);
    t.runs = more(t.runs);
    t
}

// 200 runs on one board and order.
fn runs(mut t: Tally, x: u64) -> Tally {
    let base = bases::any_board(x);
    let order = bases::any_order(next(x));
    let mut y = x;
    for _ in 0..200 {
        y = next(y);
        t = run(t, base, order, y);
    }
    t
}

fn line(word: &[u8], n: u64) {
    io::write_all(1, word);
    io::write_all(1, b" ");
    io::print_decimal(1, n);
    io::write_all(1, b"\n");
}

// The refusals that came, by their number.
fn refusals(word: &[u8], counts: [u64; 16]) {
    for i in 1..16 {
        if counts[i] > 0 {
            io::write_all(1, word);
            io::write_all(1, b" ");
            io::print_decimal(1, i as u64);
            line(b":", counts[i]);
        }
    }
}

fn print(t: Tally) {
    line(b"corruptions", t.runs);
    line(b"placed", t.placed);
    line(b"chosen, none", t.chosen);
    line(b"none", t.nothing);
    refusals(b"placing refused", t.refused);
    line(b"committed", t.committed);
    refusals(b"committing refused", t.rejected);
    if t.faults == 0 {
        io::write_all(1, b"no fault\n");
    } else {
        line(b"faults", t.faults);
    }
}

fn main() {
    let mut t = Tally {
        runs: 0,
        placed: 0,
        chosen: 0,
        nothing: 0,
        refused: [0; 16],
        committed: 0,
        rejected: [0; 16],
        faults: 0,
    };
    let mut x: u64 = 88172645463325252;
    for _ in 0..500 {
        x = next(x);
        t = runs(t, x);
    }
    print(t);
}
