// Statements, read.
#![tactic(auto)]

pub mod form;
pub mod operand;

ghost use Rattle.std.specs.Prelude.{◌≡◌, length};
ghost use Rattle.std.proofs.lemmas.List.Edits.{sets};
ghost use Rattle.tokens.specs.Cursors.{seen};
ghost use Rattle.statement.specs.Reading.{read_of, reason_of, registers_of, operands_c, told};
ghost use Rattle.reader.specs.Lists.{list_c};

use statement::{MAX32, MAX64, Misread, Opcode, Reading, Statement};
use tokens::{Cursor, Name};

// The operands of an opcode, read from a position on, and the answer.
pub fn operands(s: &[u8], k: Cursor, o: Opcode) -> Reading
    ensures { result ≡ told s.now (operands_c o (seen s.now k)) }
{
    match o {
        Opcode::Mov32 => {
            let p = form::name_number(s, k, false, MAX32);
            let (name, number) = p.value;
            form::answer(s, p.next, Statement::Mov32(name, number as u32))
        }
        Opcode::Mov64 => {
            let p = form::name_number(s, k, false, MAX64);
            let (name, number) = p.value;
            form::answer(s, p.next, Statement::Mov64(name, number))
        }
        Opcode::Alloc { shared: _ } => {
            let p = form::name_number(s, k, true, MAX32);
            let (name, number) = p.value;
            form::answer(s, p.next, Statement::Alloc(name, number as u32))
        }
        Opcode::Dealloc => {
            let p = form::name_number(s, k, false, MAX32);
            let (name, number) = p.value;
            form::answer(s, p.next, Statement::Dealloc(name, number as u32))
        }
        Opcode::Relinquish => form::bare(s, k, Statement::Relinquish),
        Opcode::Load { shape, num } => form::load(s, k, shape, num),
        Opcode::Store { shape, num } => form::store(s, k, shape, num),
        Opcode::WaitLoad => form::bare(s, k, Statement::WaitLoad),
        Opcode::WaitStore => form::bare(s, k, Statement::WaitStore),
        Opcode::FenceBefore => form::bare(s, k, Statement::FenceBefore),
        Opcode::FenceAfter => form::bare(s, k, Statement::FenceAfter),
        Opcode::Multiply { ws, sp, kind } => form::multiply(s, k, ws, sp, kind),
        Opcode::Exit => form::bare(s, k, Statement::Exit),
    }
}

// A statement, or the position of the token that no form or no number of that size goes on at.
pub fn read(s: &[u8]) -> Reading
    ensures { result ≡ read_of s.now }
{
    let Some(head) = opcode::head_of(s) else {
        return Err(Misread::NoForm(0));
    };
    let k = Cursor {
        at: head.end,
        ok: true,
        over: false,
        far: head.end,
    };
    operands(s, k, head.opcode)
}

// How many registers the operands of an opcode name; their names go to the first places.
pub fn list_of(s: &[u8], k: Cursor, o: Opcode, names: &mut [Name; 128]) -> usize
    ensures count { result ≡ length (list_c o (seen s.now k)) }
    ensures stored { names.new ≡ sets names.old 0 (list_c o (seen s.now k)) }
{
    match o {
        Opcode::Load { shape: _, num: _ } => operand::names(s, k, names).value,
        Opcode::Store { shape: _, num: _ } => {
            let a = operand::address(s, k);
            let k1 = a.next;
            operand::names(s, lexer::cursor::mark(s, k1, b','), names).value
        }
        _ => 0,
    }
}

// How many registers a statement that reads names; their names go to the first places. 0, and no place is
// changed, for a text that does not read.
pub fn registers(s: &[u8], names: &mut [Name; 128]) -> usize
    ensures count { result ≡ length (registers_of s.now) }
    ensures stored { names.new ≡ sets names.old 0 (registers_of s.now) }
{
    let Some(head) = opcode::head_of(s) else {
        return 0;
    };
    let k = Cursor {
        at: head.end,
        ok: true,
        over: false,
        far: head.end,
    };
    let t = operands(s, k, head.opcode);
    let Ok(_) = t else {
        return 0;
    };
    list_of(s, k, head.opcode, names)
}

// The number of a reading, 0 for what reads.
pub fn reason(t: Reading) -> u32
    ensures { result ≡ reason_of t }
{
    match t {
        Ok(_) => 0,
        Err(misread) => misread.reason().number(),
    }
}
