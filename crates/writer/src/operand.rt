// Operands, put into a text that is written.
ghost use Rattle.std.specs.Prelude.{◌≡◌, ◌∷◌, leb, take};
ghost use Rattle.tokens.specs.Names.{name_given};
ghost use Rattle.statement.specs.Forms.{max_offset};
ghost use Rattle.statement.specs.Canonical.{offset_text, address_text, address_given, operand_text, operand_given, names_text, all_names};
ghost use Rattle.writer.specs.Outputs.{add_c, names_given};

use crate::output::{Text, name, number};
use statement::{Address, Operand};
use tokens::Name;

// +number, or nothing for 0.
fn offset(t: &mut Text, v: u32)
    ensures { t.new ≡ add_c (offset_text v) (leb v max_offset) t.old }
{
    if v != 0 {
        t.put(b"+");
        number(t, u64::from(v), statement::MAX32);
    }
}

pub fn address(t: &mut Text, x: Address)
    ensures { t.new ≡ add_c (address_text x) (address_given x) t.old }
{
    t.put(b"[");
    name(t, x.base);
    offset(t, x.offset);
    t.put(b"]");
}

pub fn operand(t: &mut Text, x: Operand)
    ensures { t.new ≡ add_c (operand_text x) (operand_given x) t.old }
{
    match x {
        Operand::Descriptor(n) => name(t, n),
        Operand::Address(a) => address(t, a),
    }
}

// {names}
fn listed(t: &mut Text, first: Name, rest: &[Name])
    ensures { t.new ≡ add_c (names_text (first ∷ rest.now)) (all_names (first ∷ rest.now)) t.old }
{
    t.put(b"{");
    name(t, first);
    for n in rest {
        t.put(b", ");
        name(t, *n);
    }
    t.put(b"}");
}

// {names}: the first `count` of them.
pub fn names(t: &mut Text, names: &[Name], count: usize)
    ensures { t.new ≡ add_c (names_text (take count names.now)) (names_given count (take count names.now)) t.old }
{
    if statement::NAMES < count || names.len() < count {
        t.refuse();
        return;
    }
    match &names[..count] {
        [first, rest @ ..] => listed(t, *first, rest),
        [] => t.refuse(),
    }
}
