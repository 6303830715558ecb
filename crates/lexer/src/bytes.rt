// Bytes by class, and runs of them.
ghost use Rattle.std.specs.Prelude.{◌≡◌, ◌+◌, get_or, drop};
ghost use Rattle.tokens.specs.Bytes.{word_byte, opcode_byte, blank, run_len};
ghost use Rattle.tokens.specs.Numbers.{digit_of};

// The value of a digit; 16, which is below no base, for any other byte: with an Option a number takes a twentieth more instructions. The comparisons
// tell a decimal digit first: by the ranges of one `match` each digit takes three instructions more.
#[tactic(auto, unfolding(tokens::specs::Numbers::digit_of))]
pub fn digit_of(x: u8) -> u8
    ensures { result ≡ digit_of x }
{
    if x <= b'9' {
        if x < b'0' {
            return 16;
        }
        return x - b'0';
    }
    if b'a' <= x {
        if b'f' < x {
            return 16;
        }
        return x - (b'a' - 10);
    }
    if x < b'A' {
        return 16;
    }
    if b'F' < x {
        return 16;
    }
    x - (b'A' - 10)
}

// A byte of a name or a number. The comparisons tell a small letter first: by the ranges of one `match` a name takes a third more instructions.
pub fn is_word(x: u8) -> bool
    ensures { result ≡ word_byte x }
{
    if b'a' <= x {
        return x <= b'z';
    }
    if x <= b'9' {
        return (b'0' <= x) | (x == b'$');
    }
    x.is_ascii_uppercase() | (x == b'_')
}

// A byte of an opcode, by comparisons in the same order.
pub fn is_opcode(x: u8) -> bool
    ensures { result ≡ opcode_byte x }
{
    if b'a' <= x {
        return x <= b'z';
    }
    if x <= b':' {
        return (b'0' <= x) | (x == b'.');
    }
    x.is_ascii_uppercase() | (x == b'_')
}

// Whether a word byte stands at a position.
pub fn word_at(s: &[u8], at: usize) -> bool
    ensures { result ≡ word_byte (get_or s.now at 0) }
{
    match s.get(at) {
        Some(x) => is_word(*x),
        None => false,
    }
}

// Where a run of blanks ends. By `for` each blank takes eight instructions, not five.
pub fn blanks_end(s: &[u8], at: usize) -> usize
    ensures { result ≡ at + run_len blank (drop at s.now) }
{
    let mut i = at;
    while i < s.len() {
        if s[i] != b' ' {
            return i;
        }
        i += 1;
    }
    i
}
