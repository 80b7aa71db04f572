// The limits of document 01 that more than one crate holds numbers to; specs/Limits.antt has them in its words.

// An instant is at most 2^42.
pub const LAST_INSTANT: u64 = 4398046511104;
// Asked from at most 2^43 on, for a span of at most 2^53.
pub const LAST_ASKED: u64 = 8796093022208;

pub const LONGEST_SPAN: u64 = 9007199254740992;
// Setup, process, teardown and transport are at most 2^36 each.
pub const LONGEST_DURATION: u64 = 68719476736;
// Units of a booking or a usage.
pub const MOST_UNITS: u32 = 10000;
// Not one of them: 2^63, after every instant that can be reached, stands for none where numbers are kept.
pub const NEVER: u64 = 9223372036854775808;
