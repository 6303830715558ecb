// Judges a sheet: each line is read, judged and booked in turn, up to the first that is refused.
#![tactic(auto)]

ghost use Rattle.std.specs.Prelude.{◌≡◌, true, false, cond, ◌≤◌, eqb, length, take};
ghost use Rattle.reasons.specs.Reasons.{number};
ghost use Rattle.lines.specs.Sheet.{most_lines, oversize, headed, line_count};
ghost use Rattle.statement.specs.Positions.{start_column};
ghost use Rattle.rules.specs.Sheet.{answer, closing, answer_of, starts_of};
ghost use Rattle.judge.specs.Judged.{sheet_of, judged_of, start_count, starts_after, RunKept};

use progress::Progress;
use reasons::Reason;
use rules::Answer;
use steps::Books;

// The answer, and how many starts come with it. The answer's reason is the published number, 0 for none: every theorem on a
// sheet speaks of it, and C gets it.
#[derive(Clone, Copy)]
pub struct Judged {
    pub answer: Answer,
    pub starts: usize,
}

// An answer with no starts.
fn refused(reason: Reason, line: usize, column: usize, held: u32, peak: u32) -> Judged
    ensures { (result.answer ≡ answer (number reason) line column held peak) × (result.starts ≡ 0) }
{
    let answer = Answer {
        reason: reason.number(),
        line,
        column,
        held,
        peak,
    };
    Judged { answer, starts: 0 }
}

// No line is refused: exit is asked for, then room.
#[tactic(auto, unfolding(rules::specs::Sheet::closing))]
fn finish(p: Progress, exited: bool, room: usize) -> Judged
    ensures answer { result.answer ≡ closing exited p.requests room p.line start_column p.held p.peak }
    ensures starts { result.starts ≡ cond (eqb result.answer.reason 0) p.requests 0 }
{
    if !exited {
        return refused(Reason::Exit, p.line, 1, p.held, p.peak);
    }
    if room < p.requests {
        return refused(Reason::Starts, p.line, 1, 0, p.peak);
    }
    let answer = Answer {
        reason: 0,
        line: p.line,
        column: 0,
        held: 0,
        peak: p.peak,
    };
    Judged {
        answer,
        starts: p.requests,
    }
}

// The lines after line 1 of a sheet that begins with its header; the starts go to the first places of `given`.
fn judge_lines(sheet: &[u8], room: usize, given: &mut [u16; lines::LINES]) -> Judged
    requires headed { headed sheet.now ≡ true }
    requires few { line_count sheet.now ≤ most_lines }
    ensures answer { result.answer ≡ answer_of (sheet_of sheet.now) room }
    ensures count { result.starts ≡ cond (eqb result.answer.reason 0) (length (starts_of (sheet_of sheet.now))) 0 }
    ensures size { result.starts ≤ most_lines }
    ensures starts { result.answer.reason ≡ 0 → take result.starts given.new ≡ starts_of (sheet_of sheet.now) }
{
    let mut books = Books::new();
    let mut p = progress::opening();
    let mut at = lines::HEADER;
    while at < sheet.len() {
        let done = progress::advance(sheet, at, &mut books, given, &mut p);
        if let Err(refusal) = done.answer {
            return refused(refusal.reason, p.line, refusal.column, p.held, p.peak);
        }
        at = done.next;
    }
    finish(p, books.exited, room)
}

// A sheet that is not too large and begins with its header. Never inlined: the room for the starts would be cleared for a sheet that is refused before it is read.
#[inline(never)]
fn judge_headed(sheet: &[u8], starts: &mut [u16]) -> Judged
    requires small { oversize sheet.now ≡ false }
    requires headed { headed sheet.now ≡ true }
    ensures answer { result.answer ≡ judged_of sheet.now (length starts.old) }
    ensures count { result.starts ≡ start_count sheet.now (length starts.old) }
    ensures places { starts.new ≡ starts_after sheet.now starts.old }
    ensures run { RunKept sheet.now result.answer starts.new }
{
    let mut given = [0u16; lines::LINES];
    let judged = judge_lines(sheet, starts.len(), &mut given);
    let n = judged.starts;
    starts[..n].copy_from_slice(&given[..n]);
    judged
}

// Judges a sheet of any bytes: the answer, and how many starts come with it. Nothing is written to `starts` unless the sheet passes and they have room for all of
// its starts.
pub fn judge(sheet: &[u8], starts: &mut [u16]) -> Judged
    ensures answer { result.answer ≡ judged_of sheet.now (length starts.old) }
    ensures count { result.starts ≡ start_count sheet.now (length starts.old) }
    ensures places { starts.new ≡ starts_after sheet.now starts.old }
    ensures run { RunKept sheet.now result.answer starts.new }
{
    if lines::size_fault(sheet) {
        return refused(Reason::Size, 0, 0, 0, 0);
    }
    if !lines::is_headed(sheet) {
        return refused(Reason::Layout, 1, 1, 0, 0);
    }
    judge_headed(sheet, starts)
}
