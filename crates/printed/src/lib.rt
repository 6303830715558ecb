// The report of a sheet, printed into a lent room.
#![tactic(auto)]

ghost use Rattle.std.specs.Prelude.{◌≡◌, ◌+◌, ◌-◌, ◌≤◌, length};
ghost use Rattle.std.proofs.lemmas.List.Edits.{sets};
ghost use Rattle.statement.specs.Reading.{read_of};
ghost use Rattle.lines.specs.Sheet.{most_lines, line_count};
ghost use Rattle.report.specs.Report.{rows_text, report_room};
ghost use Rattle.judge.specs.Judged.{lines_of, judged_of};
ghost use Rattle.printed.specs.Printed.{rows_up_to, printed_of, room_after, RunPrinted};
ghost use Rattle.printed.specs.Allocs.{alloc_in};

use reasons::Reason;
use statement::Statement;
use tokens::Name;

// The sheet's reason (0 passed), and how many bytes its report has; where the room is too short 19, and 0. The reason is the published number, as C gets it, and
// stands beside the length since a refused sheet has a report too.
#[derive(Clone, Copy)]
pub struct Printed {
    pub reason: u32,
    pub length: usize,
}

// What an alloc asks for.
#[derive(Clone, Copy)]
struct Asked {
    name: Name,
    columns: u32,
}

// What a text asks for; nothing where it is no alloc.
fn alloc_in(text: &[u8]) -> Option<Asked>
    ensures { result ≡ alloc_in (read_of text.now) }
{
    let Ok(t) = reader::read(text) else {
        return None;
    };
    match t {
        Statement::Alloc(name, columns) => Some(Asked { name, columns }),
        _ => None,
    }
}

// The rows of a sheet that passed, from a place on: a row for each alloc, in a second pass over the lines after line 1.
// Not inlined: its frame would stand on the stack while the sheet is judged.
#[inline(never)]
fn rows(sheet: &[u8], starts: &[u16], room: &mut [u8], from: usize) -> usize
    requires passed { ((judged_of sheet.now most_lines).reason ≡ 0) × (length starts.now ≡ most_lines) }
    requires fits { from + length (rows_text (rows_up_to (lines_of sheet.now) starts.now (line_count sheet.now - 1))) ≤ length room.old }
    ensures next { result ≡ from + length (rows_text (rows_up_to (lines_of sheet.now) starts.now (line_count sheet.now - 1))) }
    ensures places { room.new ≡ sets room.old from (rows_text (rows_up_to (lines_of sheet.now) starts.now (line_count sheet.now - 1))) }
{
    let mut at = lines::HEADER;
    let mut next = from;
    // counts the allocs, not the turns of the loop
    let mut k: usize = 0;
    while let Some(line) = lines::line_at(sheet, at) {
        if let Some(a) = alloc_in(&sheet[line.start..line.end]) {
            let start = u64::from(starts[k]);
            let columns = u64::from(a.columns);
            next = report::row(&mut *room, next, a.name, start, columns);
            k += 1;
        }
        at = line.next;
    }
    next
}

// The report of a sheet in the first places of a room of at least `report::ROOM` bytes; into a shorter one nothing is written.
pub fn print(sheet: &[u8], room: &mut [u8]) -> Printed
    ensures answer { result ≡ printed_of sheet.now (length room.old) }
    ensures places { room.new ≡ room_after sheet.now room.old }
    ensures fits { result.length ≤ report_room }
    ensures run { RunPrinted sheet.now result.reason }
{
    if room.len() < report::ROOM {
        return Printed {
            reason: Reason::Room.number(),
            length: 0,
        };
    }
    let mut starts = [0u16; lines::LINES];
    let answer = judge::judge(sheet, &mut starts).answer;
    let figures = report::Figures {
        reason: u64::from(answer.reason),
        line: answer.line as u64,
        column: answer.column as u64,
        held: u64::from(answer.held),
        peak: u64::from(answer.peak),
    };
    let at = report::head(&mut *room, 0, figures);
    let reason = answer.reason;
    if answer.reason != 0 {
        return Printed { reason, length: at };
    }
    let length = rows(sheet, &starts, room, at);
    Printed { reason, length }
}
