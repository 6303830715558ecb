// What a ld, a st or an mma is refused for, by a ledger and a table of values that are left as they are.
#![tactic(auto)]

ghost use Rattle.std.specs.Prelude.{◌≡◌, ◌&&◌, ◌||◌, ◌+◌, ◌*◌, ◌/◌, ◌%◌, ◌<◌, eqb, leb, IfOk};
ghost use Rattle.laws.specs.Rules.{first_broken};
ghost use Rattle.reasons.specs.Reasons.{number, answered};
ghost use Rattle.statement.specs.Canonical.{sparse};
ghost use Rattle.statement.specs.Cells.{columns_for};
ghost use Rattle.rules.specs.Reasons.{per_lane, closed_rules};
ghost use Rattle.ledger.specs.Booking.{columns_in};
ghost use Rattle.bindings.specs.Table.{number_in};
ghost use Rattle.checks.specs.Checks.{opcode_of, word_found, AccessJudged, StartsAt, AddressTested, DescriptorTested, OperandTested, MetadataTested, OperandsJudged, MmaJudged};

use bindings::{Bindings, Value};
use instruction::Opcode;
use ledger::{Ledger, Span};
use reasons::Reason;
use statement::{Access, Address, Mma, Num, Operand, Shape, Statement};
use tokens::Name;

// The tests of an operand of an mma: a name of its sort, a descriptor that reads, and columns inside the allocation.
#[derive(Clone, Copy)]
pub struct Tested {
    pub named: bool,
    pub reads: bool,
    pub ends: bool,
}

// The offset from a lane to the next.
const LANE: u32 = 65536;

// The lane of an offset is the warp's: 32w, or for a shape of 16 lanes 32w + 16 too.
fn is_lane(warp: u8, lanes: usize, offset: u32) -> bool
    ensures { result ≡ eqb (offset / per_lane) (32 * warp) || (eqb lanes 16 && eqb (offset / per_lane) (32 * warp + 16)) }
{
    let lane = offset / LANE;
    let first = 32 * u32::from(warp);
    lane == first || (lanes == 16 && lane == first + 16)
}

// Some columns from an offset's column on are among those of an allocation.
fn ends_within(offset: u32, needed: u32, columns: u32) -> bool
    ensures { result ≡ leb (offset % per_lane + needed) columns }
{
    u64::from(offset % LANE) + u64::from(needed) <= u64::from(columns)
}

// The same, and the lane is 0.
fn mma_within(offset: u32, needed: u32, columns: u32) -> bool
    ensures { result ≡ eqb (offset / per_lane) 0 && leb (offset % per_lane + needed) columns }
{
    offset / LANE == 0 && ends_within(offset, needed, columns)
}

// The columns of an access.
fn columns_needed(shape: Shape, num: Num) -> u32
    ensures { result ≡ columns_for shape num }
{
    cells::columns(shape, num) as u32
}

// What a ld or st is refused for: 5, 6, 8 or 14. Of one that is accepted where its allocation starts.
pub fn access_judged(ledger: &Ledger, warp: u8, a: Access) -> Result<u32, Reason>
    ensures reason { AccessJudged ledger.now warp a (answered result) }
    ensures start { IfOk result (StartsAt ledger.now a.address.base) }
    ensures inside { IfOk result (λ start. start < 512) }
{
    if cells::is_miscounted(a) {
        return Err(Reason::Registers);
    }
    let Some(span) = ledger.find(a.address.base) else {
        return Err(Reason::Name);
    };
    if !is_lane(warp, cells::lanes(a.shape), a.address.offset) {
        return Err(Reason::Warp);
    }
    if !ends_within(
        a.address.offset,
        columns_needed(a.shape, a.num),
        span.columns,
    ) {
        return Err(Reason::Cells);
    }
    Ok(span.start)
}

// Reason 5 of any statement, else 15: what a line after exit is refused for.
pub fn closed_reason(t: Statement) -> Reason
    ensures { number result ≡ first_broken (closed_rules t) }
{
    if cells::is_counted(t) {
        Reason::Exit
    } else {
        Reason::Registers
    }
}

// The columns of an allocation, 0 where there is none.
fn columns_in(span: Option<Span>) -> u32
    ensures { result ≡ columns_in span }
{
    span.map_or(0, |x| x.columns)
}

// An address of an mma that needs some columns.
pub fn address_tested(ledger: &Ledger, a: Address, needed: u32) -> Tested
    ensures { AddressTested ledger.now a needed result }
{
    let span = ledger.find(a.base);
    Tested {
        named: span.is_some(),
        reads: true,
        ends: mma_within(a.offset, needed, columns_in(span)),
    }
}

// The number of a value, 0 where there is none.
fn number_in(value: Option<Value>) -> u64
    ensures { result ≡ number_in value }
{
    match value {
        Some(Value::B32(number)) => u64::from(number),
        Some(Value::B64(number)) => number,
        None => 0,
    }
}

// The name of a shared memory descriptor.
pub fn descriptor_tested(values: &Bindings, name: Name) -> Tested
    ensures { DescriptorTested values.now name result }
{
    let value = values.find(name);
    Tested {
        named: matches!(value, Some(Value::B64(_))),
        reads: shared_memory::decode(number_in(value)).is_ok(),
        ends: true,
    }
}

// Operand a.
#[inline]
pub fn operand_tested(ledger: &Ledger, values: &Bindings, a: Operand) -> Tested
    ensures { OperandTested ledger.now values.now a result }
{
    match a {
        Operand::Descriptor(name) => descriptor_tested(values, name),
        Operand::Address(address) => address_tested(ledger, address, 8),
    }
}

// The metadata of a sparse a.
pub fn metadata_tested(ledger: &Ledger, metadata: Option<Address>) -> Tested
    ensures { MetadataTested ledger.now metadata result }
{
    match metadata {
        None => Tested {
            named: true,
            reads: true,
            ends: true,
        },
        Some(address) => address_tested(ledger, address, 2),
    }
}

// There is metadata.
pub fn is_sparse(metadata: Option<Address>) -> bool
    ensures { result ≡ sparse metadata }
{
    metadata.is_some()
}

// The opcode of an mma.
pub fn opcode_of(m: Mma) -> Opcode
    ensures { result ≡ opcode_of m }
{
    Opcode {
        kind: m.kind,
        ws: m.ws,
        sp: is_sparse(m.metadata),
    }
}

// The word of an instruction descriptor: a value of 32 bits has one.
pub fn word_of(value: Option<Value>) -> Option<u32>
    ensures { result ≡ word_found value }
{
    match value {
        Some(Value::B32(word)) => Some(word),
        Some(Value::B64(_)) | None => None,
    }
}

// The reason of an mma from the allocation of d, the tests of the operands a and b and of the metadata e, and the word of idesc.
// `&` on tests that are there already: `&&` has thirteen ways through in place of six, and as many goals.
fn operands_reason(
    m: Mma,
    d: Option<Span>,
    a: Tested,
    b: Tested,
    e: Tested,
    word: Option<u32>,
) -> Result<(), Reason>
    ensures { OperandsJudged m d a b e word (answered result) }
{
    let (Some(span), Some(word)) = (d, word) else {
        return Err(Reason::Name);
    };
    if !(a.named & b.named & e.named) {
        return Err(Reason::Name);
    }
    if !(a.reads & b.reads) {
        return Err(Reason::Descriptor);
    }
    let judged = opcode_of(m).judge_word(word);
    judged.listed?;
    if mma_within(m.d.offset, judged.n, span.columns) & a.ends & e.ends {
        Ok(())
    } else {
        Err(Reason::Cells)
    }
}

// What an mma is refused for: 6, 12, the reason of its listing, or 14.
pub fn mma_reason(ledger: &Ledger, values: &Bindings, m: Mma) -> Result<(), Reason>
    ensures { MmaJudged ledger.now values.now m (answered result) }
{
    let d = ledger.find(m.d.base);
    let a = operand_tested(ledger, values, m.a);
    let b = descriptor_tested(values, m.b);
    let e = metadata_tested(ledger, m.metadata);
    let word = word_of(values.find(m.idesc));
    operands_reason(m, d, a, b, e, word)
}
