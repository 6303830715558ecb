// What the reason of a refused line points at: asked for a line that is refused, so that a sheet that passes pays nothing.
#![tactic(auto)]

ghost use Rattle.std.specs.Prelude.{◌≡◌, [], ◌∷◌};
ghost use Rattle.reasons.specs.Reasons.{number};
ghost use Rattle.statement.specs.Positions.{idesc_at};
ghost use Rattle.rules.specs.Rows.{test};
ghost use Rattle.blame.specs.Blame.{booking_at, access_at, first_or, mma_pointed, n_of, MmaBlamed, Blamed};

use bindings::Bindings;
use checks::Tested;
use ledger::Ledger;
use reasons::Reason;
use statement::{Mma, Position, Statement};

// Which operand idesc is.
fn idesc_at(m: Mma) -> usize
    ensures { result ≡ idesc_at m }
{
    if checks::is_sparse(m.metadata) { 4 } else { 3 }
}

// N of an instruction descriptor, 0 where there is no word of one.
fn n_of(m: Mma, word: Option<u32>) -> u32
    ensures { result ≡ n_of m word }
{
    match word {
        Some(word) => checks::opcode_of(m).judge_word(word).n,
        None => 0,
    }
}

// The first of d, a, b and the metadata whose test is broken, or the last operand that is tested.
fn first(d: bool, a: bool, b: bool, e: bool, last: usize) -> usize
    ensures { result ≡ first_or (test 0 d ∷ test 1 a ∷ test 2 b ∷ test 3 e ∷ []) last }
{
    if !d {
        return 0;
    }
    if !a {
        return 1;
    }
    if !b {
        return 2;
    }
    if e { last } else { 3 }
}

// What the reason of an mma points at, by the tests of its operands.
fn pointed(reason: Reason, idesc: usize, d: Tested, a: Tested, b: Tested, e: Tested) -> Position
    ensures { result ≡ mma_pointed (number reason) idesc d a b e }
{
    match reason {
        Reason::Name => Position::Name(first(d.named, a.named, b.named, e.named, idesc)),
        Reason::Descriptor => Position::Name(first(true, a.reads, b.reads, true, idesc)),
        Reason::Cells => Position::Operand(first(d.ends, a.ends, true, true, 3)),
        _ => Position::Name(idesc),
    }
}

// What the reason of an mma points at.
fn mma(ledger: &Ledger, values: &Bindings, m: Mma, reason: Reason) -> Position
    ensures { MmaBlamed ledger.now values.now m (number reason) result }
{
    let n = n_of(m, checks::word_of(values.find(m.idesc)));
    let d = checks::address_tested(ledger, m.d, n);
    let a = checks::operand_tested(ledger, values, m.a);
    let b = checks::descriptor_tested(values, m.b);
    let e = checks::metadata_tested(ledger, m.metadata);
    pointed(reason, idesc_at(m), d, a, b, e)
}

// What the reason of an alloc, dealloc or relinquish points at.
fn booking(reason: Reason) -> Position
    ensures { result ≡ booking_at (number reason) }
{
    match reason {
        Reason::Name => Position::Name(0),
        Reason::Warp => Position::Start,
        Reason::Columns => Position::Operand(1),
        _ => Position::Opcode,
    }
}

// What the reason of a ld or st points at, its address being that operand.
fn access(reason: Reason, operand: usize) -> Position
    ensures { result ≡ access_at (number reason) operand }
{
    match reason {
        Reason::Name => Position::Name(operand),
        _ => Position::Operand(operand),
    }
}

// What the reason of a refused statement points at.
pub fn position(ledger: &Ledger, values: &Bindings, t: Statement, reason: Reason) -> Position
    ensures { Blamed ledger.now values.now t (number reason) result }
{
    match reason {
        Reason::Exit => return Position::Start,
        Reason::Registers => return Position::Opcode,
        _ => {}
    }
    match t {
        Statement::Mov32(_, _) | Statement::Mov64(_, _) => Position::Name(0),
        Statement::Alloc(_, _) | Statement::Dealloc(_, _) | Statement::Relinquish => {
            booking(reason)
        }
        Statement::Load(_) => access(reason, 1),
        Statement::Store(_) => access(reason, 0),
        Statement::Multiply(m) => mma(ledger, values, m, reason),
        Statement::WaitLoad
        | Statement::WaitStore
        | Statement::FenceBefore
        | Statement::FenceAfter
        | Statement::Exit => Position::Start,
    }
}
