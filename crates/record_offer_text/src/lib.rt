// The text that an answer of `offer` prints (docs/RECORDS.md): its line and, behind a placement's, a line for each entry of the slate that
// it speaks of.
#![tactic(auto)]

ghost use Rattle.std.specs.Prelude.{◌≡◌, ◌+◌, ◌*◌, ◌≤◌, length};
ghost use Rattle.record_texts.specs.Text.{Put};
ghost use Rattle.record_offer.specs.Replies.{tells};
ghost use Rattle.record_offer.specs.Offers.{shown as shown_of};
ghost use Rattle.record_offer_text.specs.Lines.{entry_text, entries_text, line_text, text_of, placed_text, chosen_text};
ghost use Rattle.record_offer_text.specs.Lines.{line_most, entry_most, text_most};

use placing::Placed;
use record_diary_text::Line;
use record_offer::OfferAnswer;
use record_texts::{put, put_value};
use scheduler::rows::{Row, companion_in, number_in, setup_in, units_in};

// The most bytes that an answer prints: a line, and one for each of 24 entries.
pub const TEXT_MOST: usize = 91 + 24 * 90;

// `entry NUMBER SETUP UNITS COMPANION`.
fn put_entry(out: &mut [u8], at: usize, row: Row) -> usize
    requires { at + entry_most ≤ length out.old }
    ensures put { Put out.old at (entry_text row) out.new result }
    ensures upper_bound { result ≤ at + entry_most }
{
    let a = put(out, at, b"entry");
    let b = put_value(out, a, number_in(row));
    let c = put_value(out, b, setup_in(row));
    let d = put_value(out, c, units_in(row));
    let e = put_value(out, d, companion_in(row));
    put(out, e, b"\n")
}

// A line for each row.
fn put_entries(out: &mut [u8], at: usize, rows: &[Row]) -> usize
    requires { at + entry_most * length rows.now ≤ length out.old }
    ensures put { Put out.old at (entries_text rows.now) out.new result }
    ensures upper_bound { result ≤ at + entry_most * length rows.now }
{
    let mut end = at;
    for row in rows {
        end = put_entry(out, end, *row);
    }
    end
}

// `placed CHOOSING START END COUNT`.
fn put_placed(out: &mut [u8], at: usize, p: Placed) -> usize
    requires { at + line_most ≤ length out.old }
    ensures put { Put out.old at (placed_text p) out.new result }
    ensures upper_bound { result ≤ at + line_most }
{
    let a = put(out, at, b"placed");
    let b = put_value(out, a, p.choosing);
    let c = put_value(out, b, p.start);
    let d = put_value(out, c, p.end);
    let e = put_value(out, d, p.count as u64);
    put(out, e, b"\n")
}

// `chosen CHOOSING none`.
fn put_chosen(out: &mut [u8], at: usize, choosing: u64) -> usize
    requires { at + line_most ≤ length out.old }
    ensures put { Put out.old at (chosen_text choosing) out.new result }
    ensures upper_bound { result ≤ at + line_most }
{
    let a = put(out, at, b"chosen");
    let b = put_value(out, a, choosing);
    put(out, b, b" none\n")
}

// The line of an answer.
fn put_line(out: &mut [u8], at: usize, answer: OfferAnswer) -> usize
    requires { at + line_most ≤ length out.old }
    ensures put { Put out.old at (line_text (tells answer)) out.new result }
    ensures upper_bound { result ≤ at + line_most }
{
    match answer {
        OfferAnswer::Nothing => at,
        OfferAnswer::Placed(p) => put_placed(out, at, p),
        OfferAnswer::Chosen(choosing) => put_chosen(out, at, choosing),
        OfferAnswer::None => record_diary_text::text(Line::None, out, at),
        OfferAnswer::Committed => put(out, at, b"committed\n"),
        OfferAnswer::Refused(refusal) => record_diary_text::text(Line::Refused(refusal), out, at),
    }
}

// How many entries of the slate an answer speaks of.
#[tactic(auto, unfolding(record_offer::specs::Offers::shown))]
fn shown(answer: OfferAnswer) -> usize
    ensures { result ≡ shown_of (tells answer) }
{
    match answer {
        OfferAnswer::Placed(p) => p.count,
        _ => 0,
    }
}

// Puts all that an answer prints into out from `at` on, and answers where it ends.
pub fn text(answer: OfferAnswer, slate: &[Row], out: &mut [u8], at: usize) -> usize
    requires { (shown_of (tells answer) ≤ length slate.now) × (shown_of (tells answer) ≤ 24) × (at + text_most ≤ length out.old) }
    ensures put { Put out.old at (text_of (tells answer) slate.now) out.new result }
    ensures upper_bound { result ≤ at + text_most }
{
    let end = put_line(out, at, answer);
    put_entries(out, end, &slate[..shown(answer)])
}
