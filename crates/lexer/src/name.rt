// Names, packed.
ghost use Rattle.std.specs.Prelude.{◌≡◌, ◌+◌, ◌-◌, ◌*◌, ◌^◌, ◌≤◌, ◌<◌, ◌&&◌, ◌||◌, IfSome, length, drop, take, ltb, leb};
ghost use Rattle.tokens.specs.Bytes.{letter, token_len};
ghost use Rattle.tokens.specs.Names.{sigil, byte_digits};
ghost use Rattle.lexer.specs.Runs.{words_len, name_in, name_there};

use crate::bytes::{is_word, word_at};
use tokens::Name;

#[tactic(auto, unfolding(tokens::specs::Bytes::letter))]
pub fn is_letter(x: u8) -> bool
    ensures { result ≡ letter x }
{
    x.is_ascii_alphabetic()
}

// One of _ $ %.
#[tactic(auto, unfolding(tokens::specs::Names::sigil))]
pub fn is_sigil(x: u8) -> bool
    ensures { result ≡ sigil x }
{
    matches!(x, b'_' | b'$' | b'%')
}

// Whether a name may start with x.
pub fn starts(x: u8) -> bool
    ensures { result ≡ (letter x || sigil x) }
{
    is_letter(x) | is_sigil(x)
}

// Whether a token that starts with x and has n bytes more is a name.
pub fn shaped(x: u8, n: usize) -> bool
    ensures { result ≡ ((letter x || sigil x && ltb 0 n) && leb n 15) }
{
    (is_letter(x) | (is_sigil(x) & (0 < n))) & (n <= 15)
}

// A run of word bytes as digits at base 256, and where it ends.
#[derive(Clone, Copy)]
pub struct Packed {
    pub value: u64,
    pub end: usize,
}

// The run of word bytes at a position, but no more than there is room for, after v. By `for` its end is worked out twice.
fn pack(s: &[u8], at: usize, room: usize, v: u64) -> Packed
    requires { (at ≤ length s.now) × (room ≤ 8) × (v < 2 ^ (8 * (8 - room))) }
    ensures value { result.value ≡ byte_digits v (take (words_len room (drop at s.now)) (drop at s.now)) }
    ensures end { result.end ≡ at + words_len room (drop at s.now) }
{
    let stop = s.len().min(at + room);
    let mut value = v;
    let mut i = at;
    while i < stop {
        let x = s[i];
        if !is_word(x) {
            return Packed { value, end: i };
        }
        value = value * 256 + u64::from(x);
        i += 1;
    }
    Packed { value, end: i }
}

// A name, and where it ends.
#[derive(Clone, Copy)]
pub struct Taken {
    pub value: Name,
    pub end: usize,
}

// The name that the token at a position is, if it is one.
pub fn name_at(s: &[u8], at: usize) -> Option<Taken>
    ensures value { name_in s.now at result ≡ name_there (drop at s.now) }
    ensures end { IfSome result (λ n. n.end ≡ at + token_len (drop at s.now)) }
{
    if s.len() <= at {
        return None;
    }
    let x = s[at];
    if !starts(x) {
        return None;
    }
    let h = pack(s, at + 1, 7, u64::from(x));
    let hi = h.value;
    let e = h.end;
    if e < at + 8 {
        if is_letter(x) | (at + 1 < e) {
            let value = Name { hi, lo: 0 };
            return Some(Taken { value, end: e });
        }
        return None;
    }
    let l = pack(s, at + 8, 8, 0);
    let lo = l.value;
    let end = l.end;
    if (at + 16 <= end) & word_at(s, end) {
        return None;
    }
    let value = Name { hi, lo };
    Some(Taken { value, end })
}
