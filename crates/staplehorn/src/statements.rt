// Statements by themselves, on bytes.
ghost use Rattle.std.specs.Prelude.{◌≡◌, length};
ghost use Rattle.statement.specs.Reading.{read_of, registers_of};
ghost use Rattle.canonical.specs.Alone.{alone_reason, alone_column, rewritten, left_of};
ghost use Rattle.staplehorn.specs.Statements.{written_reason, written_length};

// The reason of a statement's text: 3, 4 or 5, else 0; and the column that it is found in, from 1, or 0.
pub fn staplehorn_statement_reason(text: &[u8], column: &mut usize) -> u32
    ensures reason { result ≡ alone_reason (read_of text.now) }
    ensures column { column.new ≡ alone_column (read_of text.now) }
{
    match canonical::judge_text(text) {
        Ok(()) => {
            *column = 0;
            0
        }
        Err(refusal) => {
            *column = refusal.column;
            refusal.reason.number()
        }
    }
}

// The canonical text of a statement: its reason, its length, and the room.
pub fn staplehorn_statement_canonical(text: &[u8], room: &mut [u8], size: &mut usize) -> u32
    ensures reason { result ≡ written_reason (rewritten (length room.old) (read_of text.now) (registers_of text.now)) }
    ensures size { size.new ≡ written_length (rewritten (length room.old) (read_of text.now) (registers_of text.now)) }
    ensures room { room.new ≡ left_of room.old (read_of text.now) (registers_of text.now) }
{
    match canonical::rewrite(text, room) {
        Ok(length) => {
            *size = length;
            0
        }
        Err(reason) => {
            *size = 0;
            reason.number()
        }
    }
}
