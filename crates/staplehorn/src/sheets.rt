// Whole sheets, on bytes.
ghost use Rattle.std.specs.Prelude.{◌≡◌, length};
ghost use Rattle.judge.specs.Judged.{judged_of, starts_after, RunKept};
ghost use Rattle.printed.specs.Printed.{printed_of, room_after, RunPrinted};
ghost use Rattle.staplehorn.specs.Sheets.{answered, answer_in};

// The answer for a sheet: its reason, and its six numbers; on a pass the first places of `starts`, as many as the sixth says, are those of the allocs.
pub fn staplehorn_judge(sheet: &[u8], starts: &mut [u16], answer: &mut [u32; 6]) -> u32
    ensures reason { result ≡ (judged_of sheet.now (length starts.old)).reason }
    ensures answer { answer.new ≡ answered sheet.now (length starts.old) }
    ensures places { starts.new ≡ starts_after sheet.now starts.old }
    ensures run { RunKept sheet.now (answer_in answer.new) starts.new }
{
    let judged = judge::judge(sheet, starts);
    let a = judged.answer;
    let line = a.line as u32;
    let column = a.column as u32;
    let count = judged.starts as u32;
    *answer = [a.reason, line, column, a.held, a.peak, count];
    a.reason
}

// What `foot` prints for a sheet: the reason, the length, and the room.
pub fn staplehorn_report(sheet: &[u8], room: &mut [u8], size: &mut usize) -> u32
    ensures reason { result ≡ (printed_of sheet.now (length room.old)).reason }
    ensures size { size.new ≡ (printed_of sheet.now (length room.old)).length }
    ensures room { room.new ≡ room_after sheet.now room.old }
    ensures run { RunPrinted sheet.now result }
{
    let p = printed::print(sheet, room);
    *size = p.length;
    p.reason
}
