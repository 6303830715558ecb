// The descriptor words and requests, on plain numbers.
ghost use Rattle.std.specs.Prelude.{◌≡◌};
ghost use Rattle.staplehorn.specs.Words.{kind_of, opcode_of, decoded_for, encoded_for, judged_for, listed_for, k_for, k_answer};
ghost use Rattle.reasons.specs.Reasons.{answered};
ghost use Rattle.instruction.specs.Instruction as I;
ghost use Rattle.shared_memory.specs.Shared as S;
ghost use Rattle.request.specs.Request.{request_reason};

use instruction::{Fields, Kind, Opcode};
use reasons::{Reason, answered};
use shared_memory::Shared;

// The kind of a number.
fn kind_of(n: u32) -> Option<Kind>
    ensures { result ≡ kind_of n }
{
    match n {
        0 => Some(Kind::F16),
        1 => Some(Kind::Tf32),
        2 => Some(Kind::F8f6f4),
        3 => Some(Kind::I8),
        _ => None,
    }
}

// The opcode of a kind's number and two flags.
#[tactic(auto, unfolding(crate::specs::Words::opcode_of))]
fn opcode_of(kind: u32, ws: u32, sp: u32) -> Option<Opcode>
    ensures { result ≡ opcode_of kind ws sp }
{
    let kind = kind_of(kind)?;
    if ws > 1 || sp > 1 {
        return None;
    }
    Some(Opcode {
        kind,
        ws: ws == 1,
        sp: sp == 1,
    })
}

// What a word says.
fn decode_word(kind: u32, ws: u32, sp: u32, word: u32) -> Result<Fields, Reason>
    ensures { I.read_answer result ≡ I.fields_read (decoded_for (opcode_of kind ws sp) word) }
{
    let opcode = opcode_of(kind, ws, sp).ok_or(Reason::Descriptor)?;
    opcode.decode_fields(word)
}

// The word of some numbers.
fn encode_numbers(kind: u32, ws: u32, sp: u32, f: Fields) -> Result<u32, Reason>
    ensures { I.word_answer result ≡ encoded_for (opcode_of kind ws sp) f }
{
    let opcode = opcode_of(kind, ws, sp).ok_or(Reason::Descriptor)?;
    opcode.encode_fields(f)
}

// Refuses a word with no reading, or one that is not listed.
fn judge_word(kind: u32, ws: u32, sp: u32, word: u32) -> Result<(), Reason>
    ensures { answered result ≡ judged_for (opcode_of kind ws sp) word }
{
    let opcode = opcode_of(kind, ws, sp).ok_or(Reason::Descriptor)?;
    opcode.judge_word(word).listed
}

// Refuses fields that no word reads as, or that are not listed.
fn judge_fields(kind: u32, ws: u32, sp: u32, f: Fields) -> Result<(), Reason>
    ensures { answered result ≡ listed_for (opcode_of kind ws sp) f }
{
    let opcode = opcode_of(kind, ws, sp).ok_or(Reason::Descriptor)?;
    opcode.listed_fields(f)
}

// K of an opcode.
fn k_of(kind: u32, sp: u32) -> Result<u32, Reason>
    ensures { k_answer result ≡ k_for (opcode_of kind 0 sp) }
{
    let opcode = opcode_of(kind, 0, sp).ok_or(Reason::Descriptor)?;
    Ok(opcode.k())
}

// Reads an instruction descriptor.
pub fn staplehorn_instruction_decode(
    kind: u32,
    ws: u32,
    sp: u32,
    word: u32,
    fields: &mut [u32; 13],
) -> u32
    ensures reason { result ≡ (decoded_for (opcode_of kind ws sp) word).reason }
    ensures fields { fields.new ≡ I.numbers (decoded_for (opcode_of kind ws sp) word).descriptor }
{
    let read = decode_word(kind, ws, sp, word);
    *fields = match read {
        Ok(f) => f.into(),
        Err(_) => [0; 13],
    };
    answered(read)
}

// Writes an instruction descriptor.
pub fn staplehorn_instruction_encode(
    kind: u32,
    ws: u32,
    sp: u32,
    fields: &[u32; 13],
    word: &mut u32,
) -> u32
    ensures reason { result ≡ (encoded_for (opcode_of kind ws sp) (I.fields_in fields.now)).reason }
    ensures word { word.new ≡ (encoded_for (opcode_of kind ws sp) (I.fields_in fields.now)).word }
{
    let written = encode_numbers(kind, ws, sp, Fields::from(*fields));
    *word = written.unwrap_or(0);
    answered(written)
}

// The reason of a word: 12 with no reading; 13, 20 or 21 if M, N or the types are not listed; else 0.
pub fn staplehorn_instruction_judge(kind: u32, ws: u32, sp: u32, word: u32) -> u32
    ensures { result ≡ judged_for (opcode_of kind ws sp) word }
{
    answered(judge_word(kind, ws, sp, word))
}

// The reason of a descriptor's fields: 12 if no word reads as them; 13, 20 or 21 if M, N or the types are not listed; else 0.
pub fn staplehorn_instruction_listed(kind: u32, ws: u32, sp: u32, fields: &[u32; 13]) -> u32
    ensures { result ≡ listed_for (opcode_of kind ws sp) (I.fields_in fields.now) }
{
    answered(judge_fields(kind, ws, sp, Fields::from(*fields)))
}

// K of a kind, dense or sparse.
pub fn staplehorn_instruction_k(kind: u32, sp: u32, k: &mut u32) -> u32
    ensures reason { result ≡ (k_for (opcode_of kind 0 sp)).reason }
    ensures k { k.new ≡ (k_for (opcode_of kind 0 sp)).k }
{
    let read = k_of(kind, sp);
    *k = read.unwrap_or(0);
    answered(read)
}

// Reads a shared memory descriptor.
pub fn staplehorn_shared_decode(word: u64, fields: &mut [u64; 6]) -> u32
    ensures reason { result ≡ (S.decoded word).reason }
    ensures fields { fields.new ≡ S.numbers (S.decoded word).descriptor }
{
    let read = shared_memory::decode(word);
    *fields = match read {
        Ok(d) => [d.start, d.leading, d.stride, d.base, d.mode, d.swizzle],
        Err(_) => [0; 6],
    };
    answered(read)
}

// Writes a shared memory descriptor.
pub fn staplehorn_shared_encode(fields: &[u64; 6], word: &mut u64) -> u32
    ensures reason { result ≡ (S.encoded (S.shared_in fields.now)).reason }
    ensures word { word.new ≡ (S.encoded (S.shared_in fields.now)).word }
{
    let made = shared_memory::encode(Shared {
        start: fields[0],
        leading: fields[1],
        stride: fields[2],
        base: fields[3],
        mode: fields[4],
        swizzle: fields[5],
    });
    *word = made.unwrap_or(0);
    answered(made)
}

// 0 if a request for columns is legal, else 9.
pub fn staplehorn_request(columns: u32) -> u32
    ensures { result ≡ request_reason columns }
{
    answered(request::check(columns))
}
