// One line of a sheet: read, judged, booked and counted.
#![tactic(auto)]

ghost use Rattle.std.specs.Prelude.{◌≡◌, ◌<◌, true, is_err};
ghost use Rattle.std.proofs.lemmas.List.Edits.{sets};
ghost use Rattle.reasons.specs.Reasons.{number};
ghost use Rattle.statement.specs.declared.Position.TheVariants.{Token};
ghost use Rattle.statement.specs.Positions.{byte_column};
ghost use Rattle.statement.specs.Reading.{read_of, reason_of};
ghost use Rattle.rules.specs.Sheet.{line_of};
ghost use Rattle.lines.specs.Sheet.{line_at, next_of};
ghost use Rattle.steps.specs.Steps.{LineDone, starts_of};
ghost use Rattle.progress.specs.Going.{opening, line_seen, column_seen, unplaced, Pointed, counted_of, Small, Ready, Went};

use reasons::Reason;
use statement::Reading;
use steps::{Books, Step};

// What is known after some accepted lines, beside the books and the starts: the requests, the columns held and the most that were, and how many lines
// there are.
#[derive(Clone, Copy)]
pub struct Progress {
    pub requests: usize,
    pub held: u32,
    pub peak: u32,
    pub line: usize,
}

// Why a line is refused, and its column.
#[derive(Clone, Copy)]
pub struct Refusal {
    pub reason: Reason,
    pub column: usize,
}

// One line more: where the next line starts, and whether it is refused.
#[derive(Clone, Copy)]
pub struct Advanced {
    pub next: usize,
    pub answer: Result<(), Refusal>,
}

// After line 1.
pub fn opening() -> Progress
    ensures { result ≡ opening }
{
    Progress {
        requests: 0,
        held: 0,
        peak: 0,
        line: 1,
    }
}

// A text that did not read is refused where reading stopped.
fn unread(text: &[u8], reading: Reading) -> Refusal
    requires read { reading ≡ read_of text.now }
    requires unread { is_err reading ≡ true }
    ensures reason { number result.reason ≡ reason_of reading }
    ensures column { result.column ≡ byte_column text.now Token }
{
    let Err(misread) = reading else {
        unreachable!()
    };
    let column = places::stopped(text, reading);
    Refusal {
        reason: misread.reason(),
        column,
    }
}

// The text of a line of a warp: read, judged and booked.
fn step(text: &[u8], warp: u8, books: &mut Books, held: u32) -> Result<Step, Refusal>
    requires { warp < 4 }
    ensures done { LineDone held (line_of warp (read_of text.now)) books.old (unplaced result) books.new }
    ensures column { Pointed held (line_of warp (read_of text.now)) (byte_column text.now) books.old result }
{
    let reading = reader::read(text);
    let Ok(t) = reading else {
        return Err(unread(text, reading));
    };
    match steps::statement(books, held, warp, t) {
        Ok(step) => Ok(step),
        Err(reason) => {
            let p = blame::position(&books.ledger, &books.values, t, reason);
            let column = places::column(text, p);
            Err(Refusal { reason, column })
        }
    }
}

// An accepted line is counted, and the start that it is given goes to its place.
fn count(p: &mut Progress, given: &mut [u16; lines::LINES], step: Step)
    requires { Small p.old step }
    ensures counted { p.new ≡ counted_of p.old step }
    ensures starts { given.new ≡ sets given.old p.old.requests (starts_of step.asked) }
{
    if let Some(span) = step.asked {
        given[p.requests] = span.start as u16;
        p.requests += 1;
        p.held += span.columns;
    }
    p.held -= step.returned;
    p.peak = p.peak.max(p.held);
}

// The line that starts at a place: judged and booked, its start put, and counted. A refused line changes its number alone.
pub fn advance(
    sheet: &[u8],
    at: usize,
    books: &mut Books,
    given: &mut [u16; lines::LINES],
    p: &mut Progress,
) -> Advanced
    requires { Ready (line_seen sheet.now at) given.old books.old p.old }
    ensures went { Went (line_seen sheet.now at) (column_seen sheet.now at) given.old books.old p.old result.answer given.new books.new p.new }
    ensures next { result.next ≡ next_of (line_at sheet.now at) }
{
    p.line += 1;
    let Some(line) = lines::line_at(sheet, at) else {
        let reason = Reason::Layout;
        let answer = Err(Refusal { reason, column: 1 });
        return Advanced { next: 0, answer };
    };
    let next = line.next;
    match step(&sheet[line.start..line.end], line.warp, books, p.held) {
        Ok(step) => {
            count(p, given, step);
            Advanced {
                next,
                answer: Ok(()),
            }
        }
        Err(refusal) => Advanced {
            next,
            answer: Err(refusal),
        },
    }
}
