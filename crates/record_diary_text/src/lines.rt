// The lines that records print, as bytes (01, 'Program slot').
ghost use Rattle.std.specs.Prelude.{◌+◌, ◌≤◌, length};
ghost use Rattle.record_texts.specs.Text.{Put};
ghost use Rattle.record_diary_text.specs.Lines.{line_of, text_of, line as printed};
ghost use Rattle.timeline.specs.Ask.{fit, refused};

use crate::Line;
use record_texts::{put, put_number, put_value};

// `fit START END`.
fn put_fit(out: &mut [u8], at: usize, start: u64, end: u64) -> usize
    requires { at + 46 ≤ length out.old }
    ensures put { Put out.old at (text_of (printed (fit start end))) out.new result }
    ensures upper_bound { result ≤ at + 46 }
{
    let a = put(out, at, b"fit");
    let b = put_value(out, a, start);
    let c = put_value(out, b, end);
    put(out, c, b"\n")
}

// `refused N`, for any number.
pub fn put_refused(out: &mut [u8], at: usize, n: u8) -> usize
    requires { at + 46 ≤ length out.old }
    ensures put { Put out.old at (text_of (printed (refused n))) out.new result }
    ensures upper_bound { result ≤ at + 46 }
{
    let a = put(out, at, b"refused ");
    let b = put_number(out, a, u64::from(n));
    put(out, b, b"\n")
}

// Puts a line, at most 46 bytes, into out from `at` on, and answers where it ends.
pub fn text(line: Line, out: &mut [u8], at: usize) -> usize
    requires { at + 46 ≤ length out.old }
    ensures put { Put out.old at (text_of (line_of line)) out.new result }
    ensures upper_bound { result ≤ at + 46 }
{
    match line {
        Line::Nothing => at,
        Line::Fit(start, end) => put_fit(out, at, start, end),
        Line::None => put(out, at, b"none\n"),
        Line::Refused(refusal) => put_refused(out, at, refusal.number()),
    }
}
