// Operands by a cursor: each gives a failed cursor back unchanged.
ghost use Rattle.std.specs.Prelude.{◌≡◌, set};
ghost use Rattle.std.proofs.lemmas.List.Edits.{sets};
ghost use Rattle.tokens.specs.Cursors.{seen, number_c, read_seen};
ghost use Rattle.expression.specs.Expressions.{quantity_c};
ghost use Rattle.statement.specs.Forms.{max32};
ghost use Rattle.statement.specs.Reading.{in_brackets_c, offset_c, inside_c, address_c, operand_c, names_c, tally};
ghost use Rattle.reader.specs.Rows.{named_c, plain_offset_c};

use statement::{Address, Operand};
use tokens::{Cursor, Name, Read};

// The most names that a list has.
const MOST: usize = statement::NAMES;

// A number or an expression of 32 bits.
pub fn number32(s: &[u8], k: Cursor) -> Read<u32>
    ensures { read_seen s.now result ≡ quantity_c max32 (seen s.now k) }
{
    let n = expression::quantity(s, k, statement::MAX32);
    let v = n.value;
    let next = n.next;
    Read {
        value: v as u32,
        next,
    }
}

// A number of 32 bits; what follows it is not looked at.
fn plain32(s: &[u8], k: Cursor) -> Read<u32>
    ensures { read_seen s.now result ≡ number_c max32 (seen s.now k) }
{
    let n = lexer::cursor::number(s, k, statement::MAX32);
    let v = n.value;
    let next = n.next;
    Read {
        value: v as u32,
        next,
    }
}

// [ name ]
fn in_brackets(s: &[u8], k: Cursor) -> Read<Name>
    ensures { read_seen s.now result ≡ in_brackets_c (seen s.now k) }
{
    let a = lexer::cursor::mark(s, k, b'[');
    let n = lexer::cursor::name(s, a);
    let b = n.next;
    let value = n.value;
    let next = lexer::cursor::mark(s, b, b']');
    Read { value, next }
}

// A name, in brackets or not.
pub fn named(s: &[u8], k: Cursor, bracketed: bool) -> Read<Name>
    ensures { read_seen s.now result ≡ named_c bracketed (seen s.now k) }
{
    if bracketed {
        return in_brackets(s, k);
    }
    lexer::cursor::name(s, k)
}

// + number, or nothing, which is 0.
pub fn offset(s: &[u8], k: Cursor) -> Read<u32>
    ensures { read_seen s.now result ≡ offset_c (seen s.now k) }
{
    let d = lexer::cursor::mark(s, k, b'+');
    if d.ok {
        return number32(s, d);
    }
    Read { value: 0, next: k }
}

// + and a number, whatever follows it, or nothing, which is 0.
fn plain_offset(s: &[u8], k: Cursor) -> Read<u32>
    ensures { read_seen s.now result ≡ plain_offset_c (seen s.now k) }
{
    let d = lexer::cursor::mark(s, k, b'+');
    if d.ok {
        return plain32(s, d);
    }
    Read { value: 0, next: k }
}

// name ] or name + number ]. Most offsets are numbers alone, which the bracket behind them tells: these are read once.
pub fn inside(s: &[u8], k: Cursor) -> Read<Address>
    ensures { read_seen s.now result ≡ inside_c (seen s.now k) }
{
    let n = lexer::cursor::name(s, k);
    let a = n.next;
    let p = plain_offset(s, a);
    let c = p.next;
    let done = lexer::cursor::mark(s, c, b']');
    let base = n.value;
    if done.ok {
        return Read {
            value: Address {
                base,
                offset: p.value,
            },
            next: done,
        };
    }
    let v = offset(s, a);
    let b = v.next;
    let next = lexer::cursor::mark(s, b, b']');
    Read {
        value: Address {
            base,
            offset: v.value,
        },
        next,
    }
}

pub fn address(s: &[u8], k: Cursor) -> Read<Address>
    ensures { read_seen s.now result ≡ address_c (seen s.now k) }
{
    inside(s, lexer::cursor::mark(s, k, b'['))
}

// An address where a bracket opens, else a descriptor's name.
pub fn operand(s: &[u8], k: Cursor) -> Read<Operand>
    ensures { read_seen s.now result ≡ operand_c (seen s.now k) }
{
    let d = lexer::cursor::mark(s, k, b'[');
    if d.ok {
        let a = inside(s, d);
        let value = a.value;
        let next = a.next;
        return Read {
            value: Operand::Address(value),
            next,
        };
    }
    let n = lexer::cursor::name(s, k);
    let value = n.value;
    let next = n.next;
    Read {
        value: Operand::Descriptor(value),
        next,
    }
}

// A name goes to its place, where there is one.
fn keep(names: &mut [Name], at: usize, name: Name)
    ensures { names.new ≡ set names.old at name }
{
    if at < names.len() {
        names[at] = name;
    }
}

// { 1 to 128 names }: how many; they go to the first places, as far as there are places. With no places the names are read alone.
pub fn names<const N: usize>(s: &[u8], k: Cursor, names: &mut [Name; N]) -> Read<usize>
    ensures read { read_seen s.now result ≡ tally (names_c (seen s.now k)) }
    ensures stored { names.new ≡ sets names.old 0 (names_c (seen s.now k)).value }
{
    let a = lexer::cursor::mark(s, k, b'{');
    let n = lexer::cursor::name(s, a);
    let mut at = n.next;
    keep(names, 0, n.value);
    for count in 1..MOST {
        let d = lexer::cursor::mark(s, at, b',');
        if !d.ok {
            return Read {
                value: count,
                next: lexer::cursor::mark(s, at, b'}'),
            };
        }
        let m = lexer::cursor::name(s, d);
        keep(names, count, m.value);
        at = m.next;
    }
    Read {
        value: MOST,
        next: lexer::cursor::mark(s, at, b'}'),
    }
}
