// The entries of those held together: their setups and span, and the companions that join them (the second half of `place_activity` in
// scheduler/simple.rs; 01, 'Fitting').
#![tactic(auto)]

use activity::Activity;
use place_plans::Plan;
use scheduler::{Entry, Selection};

mod joining;

ghost use Rattle.std.specs.Prelude.{◌≡◌, ℕ, ◌+◌, ◌≤◌, ◌++◌, length};
ghost use Rattle.calendar.specs.Limits.{longest_span};
ghost use Rattle.activity.specs.declared.Activity as ordered;
ghost use Rattle.activity.specs.Lawful.{Lawful};
ghost use Rattle.board.specs.declared.Board as declared;
ghost use Rattle.scheduler.specs.Fitting.{greatest_setup};
ghost use Rattle.cells.specs.Every.{Each};
ghost use Rattle.place_entries.specs.Cells.{Small, numbers_in};
ghost use Rattle.place_entries.specs.Parts.{PlansKnown, PlansOfSomeBoard, PartsOf, EntriesHeld, HeldTogether};

use joining::join_each;
pub use joining::{Entries, no_entries};

// The entries of a placement, and its span.
#[derive(Clone, Copy)]
pub struct Spanned {
    pub entries: Entries,
    pub span: u64,
}

// The companions of those held, one behind another: the first `len`. There is no heap here, so an array stands with its count.
#[derive(Clone, Copy)]
struct Companions {
    numbers: [u8; 32],
    len: usize,
}

// What the entries take from the plans: the numbers held, the setups of those that have a matrix, and the companions.
// Arrays of eight, the most that can be held: there is no heap here.
#[derive(Clone, Copy)]
struct Parts {
    numbers: [u8; 8],
    setups: [Option<u64>; 8],
    companions: Companions,
}

// These go behind the list.
fn push_each(list: Companions, more: &[u8]) -> Companions
    requires { (list.len + length more.now ≤ 32) × Each Small (numbers_in list) × Each Small more.now }
    ensures { (result.len ≡ list.len + length more.now)
        × (numbers_in result ≡ numbers_in list ++ more.now)
        × Each Small (numbers_in result) }
{
    let mut numbers = list.numbers;
    let len = list.len + more.len();
    numbers[list.len..len].copy_from_slice(more);
    Companions { numbers, len }
}

// What the plans of those held have.
fn parts_of(plans: &[Plan; 16], held: &[Selection]) -> Parts
    requires { (length held.now ≤ 8)
        × ((b : declared.Board) × (a : ordered.Activity) × (ready : ℕ) × PlansKnown b a ready plans.now held.now) }
    ensures { PartsOf plans.now held.now result }
{
    let mut numbers = [0; 8];
    let mut setups = [None; 8];
    let mut companions = Companions {
        numbers: [0; 32],
        len: 0,
    };
    for (i, h) in held.iter().enumerate() {
        let p = plans[h.place];
        numbers[i] = p.number;
        setups[i] = p.setup;
        companions = push_each(companions, &p.companions[..p.count]);
    }
    Parts {
        numbers,
        setups,
        companions,
    }
}

// The entries of those held, `own` being the setup without a matrix.
fn held_entries(p: Parts, held: &[Selection], own: u64) -> Entries
    requires { length held.now ≤ 8 }
    ensures { (result.count ≡ length held.now) × (length result.entries ≡ 24) × EntriesHeld p held.now own result.entries }
{
    let mut e = no_entries();
    for (i, h) in held.iter().enumerate() {
        e.entries[i] = scheduler::held_entry(p.numbers[i], p.setups[i].unwrap_or(own), h.usage);
    }
    e.count = held.len();
    e
}

// As `greatest_start` of place_rounds; each answers its own definition of scheduler/specs, this one that of Fitting.
fn greatest_setup(entries: &[Entry]) -> u64
    ensures { result ≡ greatest_setup entries.now }
{
    entries.iter().map(|x| x.setup).max().unwrap_or(0)
}

// The entries of those held and their companions, and the span: the greatest setup among those held, process and teardown.
pub fn entries_of(plans: &[Plan; 16], a: Activity, held: &[Selection]) -> Spanned
    requires { Lawful a.duration a.timings × (a.category ≤ 15) × (length held.now ≤ 8) × PlansOfSomeBoard a plans.now held.now }
    ensures count_bound { (result.entries.count ≤ 24) × (length result.entries.entries ≡ 24) × (result.span ≤ longest_span) }
    ensures held_together { (b : declared.Board) (ready : ℕ) → PlansKnown b a ready plans.now held.now → HeldTogether b a held.now result }
{
    let p = parts_of(plans, held);
    let d = activity::basics::duration_on(a.duration, a.timings, p.numbers, held.len());
    let e = held_entries(p, held, d.setup);
    let span = greatest_setup(&e.entries[..e.count]) + d.process + d.teardown;
    let entries = join_each(e, &p.companions.numbers[..p.companions.len]);
    Spanned { entries, span }
}
