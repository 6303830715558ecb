// Forms, put into a text that is written: the opcode's word, the operands, and the semicolon.
ghost use Rattle.std.specs.Prelude.{◌≡◌, true, ◌&&◌, [], ◌∷◌, ◌++◌, length, take, leb, eqb};
ghost use Rattle.statement.specs.declared.Opcode.TheVariants as opcode;
ghost use Rattle.statement.specs.declared.Statement.TheVariants as statement;
ghost use Rattle.tokens.specs.Names.{name_bytes, name_given};
ghost use Rattle.tokens.specs.Numbers.{decimal};
ghost use Rattle.tokens.specs.Text.{bytes};
ghost use Rattle.statement.specs.Forms.{word, shape_text, num_text, name, operand};
ghost use Rattle.statement.specs.Canonical.{opcode_of, mma_values, address_text, address_given};
ghost use Rattle.writer.specs.Outputs.{add_c, more_c, form_c};

use crate::operand::{address, names, operand};
use crate::output::{Text, name, number};
use instruction::Kind;
use statement::{Access, Mma, Num, Shape};
use tokens::Name;

// An opcode's word, a name and a number up to a limit, with the bytes between these two.
// Inlined, as the word of a ld or st is: the bytes that come in are constants then, and are copied by C's memcpy, not by memmove, which
// nothing else in the library needs.
#[inline(always)]
pub fn name_number(t: &mut Text, start: &[u8], n: Name, between: &[u8], v: u64, limit: u64)
    ensures { t.new ≡ add_c (start.now ++ (name_bytes n ++ (between.now ++ (decimal v ++ bytes ";")))) (name_given n && (leb v limit && true)) t.old }
{
    t.put(start);
    name(t, n);
    t.put(between);
    number(t, v, limit);
    t.put(b";");
}

// The word of a ld or st, which starts with `start`, and a space.
#[inline(always)]
fn access_word(t: &mut Text, start: &[u8], shape: Shape, num: Num)
    ensures { t.new ≡ add_c ((start.now ++ (shape_text shape ++ (num_text num ++ bytes ".b32"))) ++ bytes " ") true t.old }
{
    t.put(start);
    t.put(spellings::shape(shape));
    t.put(spellings::num(num));
    t.put(b".b32 ");
}

pub fn load(t: &mut Text, a: Access, registers: &[Name])
    ensures { t.new ≡ form_c (opcode.Load a.shape a.num) (take a.registers registers.now, (a.address, tt)) (eqb a.registers (length (take a.registers registers.now))) t.old }
{
    access_word(t, b"tcgen05.ld.sync.aligned", a.shape, a.num);
    names(t, registers, a.registers);
    t.put(b", ");
    address(t, a.address);
    t.put(b";");
}

// A st has its operands in the other order than a ld: one function for both would have a switch in it.
pub fn store(t: &mut Text, a: Access, registers: &[Name])
    ensures { t.new ≡ form_c (opcode.Store a.shape a.num) (a.address, (take a.registers registers.now, tt)) (eqb a.registers (length (take a.registers registers.now))) t.old }
{
    access_word(t, b"tcgen05.st.sync.aligned", a.shape, a.num);
    address(t, a.address);
    t.put(b", ");
    names(t, registers, a.registers);
    t.put(b";");
}

// The word of an mma, and a space.
fn mma_word(t: &mut Text, ws: bool, sp: bool, kind: Kind)
    ensures { t.new ≡ add_c (word (opcode.Multiply ws sp kind) ++ bytes " ") true t.old }
{
    t.put(b"tcgen05.mma");
    t.put(spellings::option(ws, b".ws"));
    t.put(spellings::option(sp, b".sp"));
    t.put(b".cta_group::1.kind::");
    t.put(spellings::kind(kind));
    t.put(b" ");
}

// An mma up to its b.
fn mma_front(t: &mut Text, m: Mma, sp: bool)
    ensures { t.new ≡ more_c (operand ∷ name ∷ []) (m.a, (m.b, tt)) (add_c (address_text m.d) (address_given m.d) (add_c (word (opcode.Multiply m.ws sp m.kind) ++ bytes " ") true t.old)) }
{
    mma_word(t, m.ws, sp, m.kind);
    address(t, m.d);
    t.put(b", ");
    operand(t, m.a);
    t.put(b", ");
    name(t, m.b);
}

// The last two operands of an mma, and the semicolon.
fn mma_back(t: &mut Text, m: Mma)
    ensures { t.new ≡ add_c (bytes ";") true (more_c (name ∷ name ∷ []) (m.idesc, (m.predicate, tt)) t.old) }
{
    t.put(b", ");
    name(t, m.idesc);
    t.put(b", ");
    name(t, m.predicate);
    t.put(b";");
}

pub fn multiply(t: &mut Text, m: Mma)
    ensures { t.new ≡ form_c (opcode_of (statement.Multiply m)) (mma_values m m.metadata) true t.old }
{
    match m.metadata {
        None => {
            mma_front(t, m, false);
            mma_back(t, m);
        }
        Some(e) => {
            mma_front(t, m, true);
            t.put(b", ");
            address(t, e);
            mma_back(t, m);
        }
    }
}
