// The descriptor words and requests, on plain numbers.
ghost use Rattle.std.specs.Prelude.{◌≡◌};
ghost use Rattle.staplehorn.specs.Words.{opcode_of, decoded_for, encoded_for, judged_for, listed_for, k_for};
ghost use Rattle.instruction.specs.Instruction as I;
ghost use Rattle.shared_memory.specs.Shared as S;
ghost use Rattle.request.specs.Request.{request_reason};

// Reads an instruction descriptor.
#[unsafe(no_mangle)]
pub extern "C" fn staplehorn_instruction_decode(
    kind: u32,
    ws: u32,
    sp: u32,
    word: u32,
    fields: &mut [u32; 13],
) -> u32
    ensures reason { result ≡ (decoded_for (opcode_of kind ws sp) word).reason }
    ensures fields { fields.new ≡ I.numbers (decoded_for (opcode_of kind ws sp) word).descriptor }
{
    staplehorn::words::staplehorn_instruction_decode(kind, ws, sp, word, fields)
}

// Writes an instruction descriptor.
#[unsafe(no_mangle)]
pub extern "C" fn staplehorn_instruction_encode(
    kind: u32,
    ws: u32,
    sp: u32,
    fields: &[u32; 13],
    word: &mut u32,
) -> u32
    ensures reason { result ≡ (encoded_for (opcode_of kind ws sp) (I.fields_in fields.now)).reason }
    ensures word { word.new ≡ (encoded_for (opcode_of kind ws sp) (I.fields_in fields.now)).word }
{
    staplehorn::words::staplehorn_instruction_encode(kind, ws, sp, fields, word)
}

// The reason of a word: 12 with no reading; 13, 20 or 21 if M, N or the types are not listed; else 0.
#[unsafe(no_mangle)]
pub extern "C" fn staplehorn_instruction_judge(kind: u32, ws: u32, sp: u32, word: u32) -> u32
    ensures { result ≡ judged_for (opcode_of kind ws sp) word }
{
    staplehorn::words::staplehorn_instruction_judge(kind, ws, sp, word)
}

// The reason of a descriptor's fields: 12 if no word reads as them; 13, 20 or 21 if M, N or the types are not listed; else 0.
#[unsafe(no_mangle)]
pub extern "C" fn staplehorn_instruction_listed(
    kind: u32,
    ws: u32,
    sp: u32,
    fields: &[u32; 13],
) -> u32
    ensures { result ≡ listed_for (opcode_of kind ws sp) (I.fields_in fields.now) }
{
    staplehorn::words::staplehorn_instruction_listed(kind, ws, sp, fields)
}

// K of a kind, dense or sparse.
#[unsafe(no_mangle)]
pub extern "C" fn staplehorn_instruction_k(kind: u32, sp: u32, k: &mut u32) -> u32
    ensures reason { result ≡ (k_for (opcode_of kind 0 sp)).reason }
    ensures k { k.new ≡ (k_for (opcode_of kind 0 sp)).k }
{
    staplehorn::words::staplehorn_instruction_k(kind, sp, k)
}

// Reads a shared memory descriptor.
#[unsafe(no_mangle)]
pub extern "C" fn staplehorn_shared_decode(word: u64, fields: &mut [u64; 6]) -> u32
    ensures reason { result ≡ (S.decoded word).reason }
    ensures fields { fields.new ≡ S.numbers (S.decoded word).descriptor }
{
    staplehorn::words::staplehorn_shared_decode(word, fields)
}

// Writes a shared memory descriptor.
#[unsafe(no_mangle)]
pub extern "C" fn staplehorn_shared_encode(fields: &[u64; 6], word: &mut u64) -> u32
    ensures reason { result ≡ (S.encoded (S.shared_in fields.now)).reason }
    ensures word { word.new ≡ (S.encoded (S.shared_in fields.now)).word }
{
    staplehorn::words::staplehorn_shared_encode(fields, word)
}

// 0 if a request for columns is legal, else 9.
#[unsafe(no_mangle)]
pub extern "C" fn staplehorn_request(columns: u32) -> u32
    ensures { result ≡ request_reason columns }
{
    staplehorn::words::staplehorn_request(columns)
}
