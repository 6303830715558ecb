// Where the parts of a statement stand in its text, and their columns in its line.
#![tactic(auto)]

ghost use Rattle.std.specs.Prelude.{◌≡◌, false, ◌+◌, ◌-◌, length, drop};
ghost use Rattle.std.specs.List.{prefix_len};
ghost use Rattle.tokens.specs.Bytes.{opcode_byte, blank, after_blanks};
ghost use Rattle.statement.specs.Reading.{opcode_len, read_of};
ghost use Rattle.statement.specs.declared.Position.TheVariants.{Token};
ghost use Rattle.statement.specs.Positions.{within, after_comma, after_commas, operand_from, name_from, operand_place, name_place, stop_in, statement_column, byte_column};

use statement::{Position, Reading};

// Where the opcode ends.
fn opcode_end(s: &[u8]) -> usize
    ensures { result ≡ prefix_len opcode_byte s.now }
{
    s.iter()
        .take_while(|b| lexer::bytes::is_opcode(**b))
        .count()
}

// A space.
fn is_blank(x: u8) -> bool
    ensures { result ≡ blank x }
{
    x == b' '
}

// Where the spaces end.
fn blanks_end(s: &[u8]) -> usize
    ensures { result ≡ prefix_len blank s.now }
{
    s.iter().take_while(|b| is_blank(**b)).count()
}

// What follows the opcode.
fn after_opcode<'a>(s: &'a [u8]) -> &'a [u8]
    ensures { result.now ≡ drop (opcode_len s.now) s.now }
{
    let end = opcode_end(s);
    &s[end..]
}

// What follows the spaces.
fn after_blanks<'a>(s: &'a [u8]) -> &'a [u8]
    ensures { result.now ≡ after_blanks s.now }
{
    let end = blanks_end(s);
    &s[end..]
}

// Whether we are inside braces after a byte.
fn within(inside: bool, x: u8) -> bool
    ensures { result ≡ within inside x }
{
    (x == b'{') | (inside & !(x == b'}'))
}

// What follows the first comma outside of braces.
fn after_comma<'a>(s: &'a [u8]) -> &'a [u8]
    ensures { result.now ≡ after_comma false s.now }
{
    let mut inside = false;
    let mut rest = s;
    while let Some((x, more)) = rest.split_first() {
        if (*x == b',') & !inside {
            return more;
        }
        inside = within(inside, *x);
        rest = more;
    }
    rest
}

// What follows so many of them.
fn after_commas<'a>(s: &'a [u8], count: usize) -> &'a [u8]
    ensures { result.now ≡ after_commas count s.now }
{
    let mut rest = s;
    for _ in 0..count {
        if rest.is_empty() {
            return rest;
        }
        rest = after_comma(rest);
    }
    rest
}

// From an operand on: past the opcode, the commas and the spaces.
fn operand_from<'a>(s: &'a [u8], index: usize) -> &'a [u8]
    ensures { result.now ≡ operand_from s.now index }
{
    after_blanks(after_commas(after_opcode(s), index))
}

// From its name on, inside the bracket if one opens.
fn name_from<'a>(s: &'a [u8], index: usize) -> &'a [u8]
    ensures { result.now ≡ name_from s.now index }
{
    let rest = operand_from(s, index);
    let Some((x, inside)) = rest.split_first() else {
        return rest;
    };
    if *x == b'[' {
        after_blanks(inside)
    } else {
        rest
    }
}

// The place of an operand.
pub fn operand(s: &[u8], index: usize) -> usize
    ensures { result ≡ operand_place s.now index }
{
    s.len().saturating_sub(operand_from(s, index).len())
}

// The place of its name.
pub fn name(s: &[u8], index: usize) -> usize
    ensures { result ≡ name_place s.now index }
{
    s.len().saturating_sub(name_from(s, index).len())
}

// The place of the token that no form has there, or of the number that is out of range; 0 for a text that reads.
fn stop_of(t: Reading) -> usize
    ensures { result ≡ stop_in t }
{
    match t {
        Ok(_) => 0,
        Err(misread) => misread.place(),
    }
}

// The column of a place in a statement's text.
fn column_at(s: &[u8], at: usize) -> usize
    ensures { result ≡ statement_column + (length s.now - length (drop at s.now)) }
{
    if at < s.len() { 3 + at } else { 3 + s.len() }
}

// The column of that place, of what a text was read as.
pub fn stopped(s: &[u8], t: Reading) -> usize
    requires { t ≡ read_of s.now }
    ensures { result ≡ byte_column s.now Token }
{
    column_at(s, stop_of(t))
}

// The column of a position in a statement's line.
pub fn column(s: &[u8], p: Position) -> usize
    ensures { result ≡ byte_column s.now p }
{
    match p {
        Position::Start => 1,
        Position::Token => stopped(s, reader::read(s)),
        Position::Opcode => 3,
        Position::Name(i) => column_at(s, name(s, i)),
        Position::Operand(i) => column_at(s, operand(s, i)),
    }
}
