// Tokens by a cursor that stops at the first token that does not fit, and stays there.
ghost use Rattle.std.specs.Prelude.{◌≡◌, ◌-◌, true, cond, length, drop};
ghost use Rattle.tokens.specs.Cursors.{seen, mark_c, end_c, name_c, number_c, read_seen};
ghost use Rattle.lexer.specs.Places.{within};

use crate::bytes::blanks_end;
use crate::name::name_at;
use crate::number::numeral;
use tokens::{Cursor, Name, Read};

// Past the byte m, which blanks may precede.
pub fn mark(s: &[u8], k: Cursor, m: u8) -> Cursor
    ensures rest { seen s.now result ≡ mark_c m (seen s.now k) }
    ensures within { within s.now k → within s.now result }
{
    if !k.ok {
        return k;
    }
    let i = blanks_end(s, k.at);
    if i < s.len() && s[i] == m {
        return moved(k, i + 1, true);
    }
    moved(k, i, false)
}

// Past the semicolon, and nothing after it.
pub fn end(s: &[u8], k: Cursor) -> Cursor
    ensures rest { seen s.now result ≡ end_c (seen s.now k) }
    ensures within { within s.now k → within s.now result }
{
    let d = mark(s, k, b';');
    moved(d, d.at, d.ok & (s.len() <= d.at))
}

// The cursor at another place.
fn moved(k: Cursor, at: usize, ok: bool) -> Cursor
    ensures { result ≡ record { at = at; ok = ok; over = k.over; far = k.far } }
{
    Cursor { at, ok, ..k }
}

// The cursor past a number that starts at i, ends at e and is too large.
fn past(k: Cursor, i: usize, e: usize) -> Cursor
    ensures { result ≡ record { at = e; ok = true; over = true; far = cond k.over k.far i } }
{
    let far = if k.over { k.far } else { i };
    Cursor {
        at: e,
        ok: true,
        over: true,
        far,
    }
}

// Past a name, which blanks may precede.
pub fn name(s: &[u8], k: Cursor) -> Read<Name>
    ensures rest { read_seen s.now result ≡ name_c (seen s.now k) }
    ensures within { within s.now k → within s.now result.next }
{
    let no_name = Name { hi: 0, lo: 0 };
    if !k.ok {
        return Read {
            value: no_name,
            next: k,
        };
    }
    let i = blanks_end(s, k.at);
    match name_at(s, i) {
        Some(n) => Read {
            value: n.value,
            next: moved(k, n.end, true),
        },
        None => Read {
            value: no_name,
            next: moved(k, i, false),
        },
    }
}

// Past a number, which blanks may precede; 0 stands for one over the limit.
pub fn number(s: &[u8], k: Cursor, limit: u64) -> Read<u64>
    ensures rest { read_seen s.now result ≡ number_c limit (seen s.now k) }
    ensures within { within s.now k → within s.now result.next }
{
    if !k.ok {
        return Read { value: 0, next: k };
    }
    let i = blanks_end(s, k.at);
    let Some(n) = numeral(s, i) else {
        return Read {
            value: 0,
            next: moved(k, i, false),
        };
    };
    let e = i + n.used;
    match n.value {
        Some(value) if value <= limit => Read {
            value,
            next: moved(k, e, true),
        },
        _ => Read {
            value: 0,
            next: past(k, i, e),
        },
    }
}

// A position as an answer names it: the length where nothing is left.
pub fn place(s: &[u8], at: usize) -> usize
    ensures { result ≡ length s.now - length (drop at s.now) }
{
    at.min(s.len())
}
