// Random numbers and words, from a seed.
ghost use Rattle.std.specs.Prelude.{◌<◌};

// The next number (xorshift).
pub fn next(x: u64) -> u64 {
    let a = x ^ (x << 13);
    let b = a ^ (a >> 7);
    b ^ (b << 17)
}

// One of the numbers at which a limit lies, or beside it.
fn edge(x: u64) -> u64 {
    match x % 20 {
        0 => 0,
        1 => 1,
        2 => 4,
        3 => 5,
        4 => 8,
        5 => 15,
        6 => 16,
        7 => 32,
        8 => 33,
        9 => 64,
        10 => 65,
        11 => 10000,
        12 => 10001,
        13 => 68719476736,
        14 => 68719476737,
        15 => 4398046511104,
        16 => 4398046511105,
        17 => 9223372036854775807,
        18 => 9223372036854775808,
        _ => 18446744073709551615,
    }
}

// A word: a small one, an edge, or any.
pub fn word(x: u64) -> u64 {
    let y = next(x);
    match x % 8 {
        0..=3 => y % 24,
        4..=6 => edge(y),
        _ => next(y),
    }
}

// A word as an entry of a matrix; a number below 0 stands for a word from 2^63 on.
pub fn entry(x: u64) -> i64 {
    let w = word(x);
    if w < 9223372036854775808 {
        return w as i64;
    }
    match w % 4 {
        0 => -2,
        1 => -68719476736,
        2 => -9223372036854775808,
        _ => -1,
    }
}

// A speed: right, at the edges 0.25 and 4, beside them, or far off.
pub fn speed(x: u64) -> f64 {
    match x % 12 {
        0 => 1.0,
        1 => 0.25,
        2 => 4.0,
        3 => 0.24999999999999997,
        4 => 4.000000000000001,
        5 => 0.0 / 0.0,
        6 => 1.0 / 0.0,
        7 => -1.0,
        8 => 0.0,
        9 => 1.5,
        10 => 1000000000000.0,
        _ => 2.0,
    }
}

// One of 32 cells, every other time the first.
pub fn cell(x: u64) -> usize
    ensures { result < 32 }
{
    if x % 2 == 0 {
        0
    } else {
        (x / 64 % 32) as usize
    }
}
