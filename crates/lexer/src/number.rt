// Numbers of any length, in four bases, read in one pass.
ghost use Rattle.std.specs.Prelude.{◌≡◌, ◌+◌, ◌*◌, ◌^◌, ◌<◌, [], ◌∷◌, length, drop, ltb};
ghost use Rattle.std.specs.List.{prefix_len};
ghost use Rattle.tokens.specs.Bytes.{token_of};
ghost use Rattle.tokens.specs.Numbers.{begins, digits_len, worth, fit, numeral_of};
ghost use Rattle.lexer.specs.Runs.{notation_of, digit_below, row_for_base, suffix_len, row_numeral};

use crate::bytes::{digit_of, word_at};
use tokens::Numeral;

// How a number is written: a row of the table of notations.
#[derive(Clone, Copy)]
pub enum Base {
    Hexadecimal,
    Binary,
    Octal,
    Decimal,
}

// A row of that table: its base, how many bytes stand before the digits, how few digits there may be; and the largest number of 64 bits, 2^64-1, by its last digit
// and what stands before that.
#[derive(Clone, Copy)]
struct Row {
    base: u8,
    prefix: usize,
    fewest: usize,
    most: u64,
    last: u64,
}

impl Base {
    fn row(self) -> Row
        ensures { result ≡ row_for_base self }
    {
        match self {
            Base::Hexadecimal => Row {
                base: 16,
                prefix: 2,
                fewest: 1,
                most: 0x0fff_ffff_ffff_ffff,
                last: 15,
            },
            Base::Binary => Row {
                base: 2,
                prefix: 2,
                fewest: 1,
                most: 0x7fff_ffff_ffff_ffff,
                last: 1,
            },
            Base::Octal => Row {
                base: 8,
                prefix: 1,
                fewest: 0,
                most: 0x1fff_ffff_ffff_ffff,
                last: 7,
            },
            Base::Decimal => Row {
                base: 10,
                prefix: 0,
                fewest: 1,
                most: 1844674407370955161,
                last: 5,
            },
        }
    }
}

// What digits are as a number, if it is at most 2^64-1; and where they end.
#[derive(Clone, Copy)]
pub struct Digits {
    pub value: Option<u64>,
    pub end: usize,
}

// Whether v with one digit more, in the base of a row, is below 2^64.
fn has_room(row: Row, v: u64, d: u64) -> bool
    ensures { (b : Base) → row ≡ row_for_base b → d < (notation_of b).base → result ≡ ltb (v * (notation_of b).base + d) (2 ^ 64) }
{
    if v < row.most {
        return true;
    }
    (v == row.most) & (d <= row.last)
}

// How many digits of a base there are at the head.
fn digit_count(s: &[u8], base: u8) -> usize
    ensures { result ≡ prefix_len (digit_below base) s.now }
{
    s.iter().take_while(|x| digit_of(**x) < base).count()
}

// The run of digits at a position.
fn run(s: &[u8], at: usize, b: Base) -> Digits
    ensures value { result.value ≡ fit (worth (notation_of b) (drop at s.now)) }
    ensures end { result.end ≡ at + digits_len (notation_of b) (drop at s.now) }
{
    let row = b.row();
    let base = row.base;
    let times = u64::from(base);
    let mut v: u64 = 0;
    for i in at..s.len() {
        let digit = digit_of(s[i]);
        if base <= digit {
            return Digits {
                value: Some(v),
                end: i,
            };
        }
        let d = u64::from(digit);
        if !has_room(row, v, d) {
            let end = i + digit_count(&s[i..], base);
            return Digits { value: None, end };
        }
        v = v * times + d;
    }
    Digits {
        value: Some(v),
        end: at.max(s.len()),
    }
}

// How many bytes the U at a position takes, if there is one.
fn suffix_of(s: &[u8], at: usize) -> usize
    ensures { result ≡ suffix_len (drop at s.now) }
{
    match s.get(at) {
        Some(b'U') => 1,
        _ => 0,
    }
}

// The number that a token at a position is, if it goes by a base. Inlined, so that each base has a loop with its own constants.
#[inline(always)]
fn spelled(s: &[u8], at: usize, b: Base) -> Option<Numeral>
    requires { at < length s.now }
    ensures { result ≡ row_numeral (notation_of b) (drop (at + length (notation_of b).prefix) s.now) }
{
    let row = b.row();
    let first = at + row.prefix;
    let d = run(s, first, b);
    let last = d.end;
    if last - first < row.fewest {
        return None;
    }
    let end = last + suffix_of(s, last);
    if word_at(s, end) {
        return None;
    }
    let value = d.value;
    let used = end - at;
    Some(Numeral { value, used })
}

// Whether one of two bytes stands at a position.
fn either_at(s: &[u8], at: usize, a: u8, b: u8) -> bool
    ensures { result ≡ begins ((a ∷ (b ∷ [])) ∷ []) (drop at s.now) }
{
    match s.get(at) {
        Some(x) => (*x == a) | (*x == b),
        None => false,
    }
}

// The number that the token at a position is, if any, and how many bytes it took. 0 alone is octal; it is met most and told first.
pub fn numeral(s: &[u8], at: usize) -> Option<Numeral>
    ensures { result ≡ numeral_of (token_of (drop at s.now)) }
{
    if s.len() <= at {
        return None;
    }
    if s[at] != b'0' {
        return spelled(s, at, Base::Decimal);
    }
    let next = at + 1;
    if either_at(s, next, b'x', b'X') {
        return spelled(s, at, Base::Hexadecimal);
    }
    if !word_at(s, next) {
        let value = Some(0);
        return Some(Numeral { value, used: 1 });
    }
    if either_at(s, next, b'b', b'B') {
        return spelled(s, at, Base::Binary);
    }
    spelled(s, at, Base::Octal)
}
