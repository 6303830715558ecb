// Forms: a straight line of operands, and one answer.
ghost use Rattle.std.specs.Prelude.{◌≡◌, ◌≤◌};
ghost use Rattle.tokens.specs.Cursors.{seen, end_c, read_seen};
ghost use Rattle.statement.specs.declared.Opcode.TheVariants as opcode;
ghost use Rattle.statement.specs.Reading.{answer_of, operands_c, told};
ghost use Rattle.reader.specs.Rows.{pair_c, pair_seen, metadata_c};

use instruction::Kind;
use statement::{Access, Address, Misread, Mma, Num, Reading, Shape, Statement};
use tokens::{Cursor, Name, Read};

// The most bytes of a text that reads.
const LONGEST: usize = 4096;

// No form where reading stopped, or past the end of a longer text; out of range where a number or an expression was; else the statement.
pub fn answer(s: &[u8], k: Cursor, t: Statement) -> Reading
    ensures { result ≡ answer_of s.now (seen s.now k) t }
{
    let at = k.at;
    let far = k.far;
    if !k.ok {
        return Err(Misread::NoForm(lexer::cursor::place(s, at)));
    }
    if LONGEST < s.len() {
        return Err(Misread::NoForm(s.len()));
    }
    if k.over {
        return Err(Misread::TooLarge(lexer::cursor::place(s, far)));
    }
    Ok(t)
}

// A form with no operands.
pub fn bare(s: &[u8], k: Cursor, t: Statement) -> Reading
    ensures { result ≡ answer_of s.now (end_c (seen s.now k)) t }
{
    answer(s, lexer::cursor::end(s, k), t)
}

// A name, in brackets or not, a number up to a limit, and the end. Most numbers are alone, which the end behind them tells: these are read once.
#[inline(always)]
pub fn name_number(s: &[u8], k: Cursor, bracketed: bool, limit: u64) -> Read<(Name, u64)>
    ensures read { pair_seen s.now limit result ≡ pair_c bracketed limit (seen s.now k) }
    ensures under { result.value.1 ≤ limit }
{
    let n = crate::operand::named(s, k, bracketed);
    let k1 = n.next;
    let k2 = lexer::cursor::mark(s, k1, b',');
    let p = lexer::cursor::number(s, k2, limit);
    let c = p.next;
    let done = lexer::cursor::end(s, c);
    let name = n.value;
    if done.ok {
        return Read {
            value: (name, p.value),
            next: done,
        };
    }
    let v = expression::quantity(s, k2, limit);
    let k3 = v.next;
    let next = lexer::cursor::end(s, k3);
    Read {
        value: (name, v.value),
        next,
    }
}

// A ld and a st stay apart: their operands come in the other order.
pub fn load(s: &[u8], k: Cursor, shape: Shape, num: Num) -> Reading
    ensures { result ≡ told s.now (operands_c (opcode.Load shape num) (seen s.now k)) }
{
    let n = crate::operand::names(s, k, &mut []);
    let k1 = n.next;
    let k2 = lexer::cursor::mark(s, k1, b',');
    let a = crate::operand::address(s, k2);
    let k3 = a.next;
    let e = lexer::cursor::end(s, k3);
    let address = a.value;
    answer(
        s,
        e,
        Statement::Load(Access {
            shape,
            num,
            registers: n.value,
            address,
        }),
    )
}

pub fn store(s: &[u8], k: Cursor, shape: Shape, num: Num) -> Reading
    ensures { result ≡ told s.now (operands_c (opcode.Store shape num) (seen s.now k)) }
{
    let a = crate::operand::address(s, k);
    let k1 = a.next;
    let k2 = lexer::cursor::mark(s, k1, b',');
    let n = crate::operand::names(s, k2, &mut []);
    let k3 = n.next;
    let e = lexer::cursor::end(s, k3);
    let address = a.value;
    answer(
        s,
        e,
        Statement::Store(Access {
            shape,
            num,
            registers: n.value,
            address,
        }),
    )
}

// The metadata's address after a comma, for a sparse a alone.
fn metadata(s: &[u8], k: Cursor, sp: bool) -> Read<Option<Address>>
    ensures { read_seen s.now result ≡ metadata_c sp (seen s.now k) }
{
    if sp {
        let a = crate::operand::address(s, lexer::cursor::mark(s, k, b','));
        let value = a.value;
        let next = a.next;
        return Read {
            value: Some(value),
            next,
        };
    }
    Read {
        value: None,
        next: k,
    }
}

pub fn multiply(s: &[u8], k: Cursor, ws: bool, sp: bool, kind: Kind) -> Reading
    ensures { result ≡ told s.now (operands_c (opcode.Multiply ws sp kind) (seen s.now k)) }
{
    let d = crate::operand::address(s, k);
    let k1 = d.next;
    let k2 = lexer::cursor::mark(s, k1, b',');
    let a = crate::operand::operand(s, k2);
    let k3 = a.next;
    let k4 = lexer::cursor::mark(s, k3, b',');
    let b = lexer::cursor::name(s, k4);
    let k5 = b.next;
    let m = metadata(s, k5, sp);
    let k6 = m.next;
    let k7 = lexer::cursor::mark(s, k6, b',');
    let i = lexer::cursor::name(s, k7);
    let k8 = i.next;
    let k9 = lexer::cursor::mark(s, k8, b',');
    let p = lexer::cursor::name(s, k9);
    let k10 = p.next;
    let e = lexer::cursor::end(s, k10);
    let da = d.value;
    let ao = a.value;
    let bn = b.value;
    let me = m.value;
    let idesc = i.value;
    let predicate = p.value;
    answer(
        s,
        e,
        Statement::Multiply(Mma {
            ws,
            kind,
            d: da,
            a: ao,
            b: bn,
            metadata: me,
            idesc,
            predicate,
        }),
    )
}
