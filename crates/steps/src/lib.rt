// One statement of a sheet, judged and booked: its reason, or what it asks for and gives back; and what the judge keeps.
#![tactic(auto)]

ghost use Rattle.std.specs.Prelude.{◌≡◌, ℕ, ◌<◌, Ok, IfOk};
ghost use Rattle.reasons.specs.Reasons.{answered};
ghost use Rattle.statement.specs.declared.Statement.TheVariants.{Alloc, Dealloc, Relinquish, Multiply, Exit};
ghost use Rattle.outstanding.specs.Words.{waited};
ghost use Rattle.steps.specs.Steps.{opening, quiet, mov_by, access_by, wait_by, exit_of, OpenDone, StatementDone};
ghost use Rattle.steps.specs.Steps.{alloc_reason, alloc_step, release_reason, release_step, relinquish_reason};
ghost use Rattle.steps.specs.Steps.{with_outstanding, after_mov, after_alloc, after_release, after_relinquish, after_access, after_exit};

use bindings::{Bindings, Value};
use ledger::{Ledger, Span};
use outstanding::Outstanding;
use reasons::Reason;
use statement::{Access, Mma, Statement, Transfer};
use tokens::Name;

// What the judge keeps from line to line. `exited`: exit was passed.
#[derive(Clone, Copy)]
pub struct Books {
    pub ledger: Ledger,
    pub values: Bindings,
    pub outstanding: Outstanding,
    pub exited: bool,
}

impl Books {
    // Nothing is kept. Never inlined: the parts would lie on the judge's stack beside the whole.
    #[inline(never)]
    pub fn new() -> Books
        ensures { result ≡ opening }
    {
        Books {
            ledger: Ledger::new(),
            values: Bindings::new(),
            outstanding: Outstanding::new(),
            exited: false,
        }
    }
}

// What an accepted statement asks for, and the columns that it gives back.
#[derive(Clone, Copy)]
pub struct Step {
    pub asked: Option<Span>,
    pub returned: u32,
}

// Nothing is asked for or given back.
const QUIET: Step = Step {
    asked: None,
    returned: 0,
};

// A value is bound, unless its name has a live allocation (6) or there is no room (7).
fn mov(books: &mut Books, name: Name, value: Value) -> Result<Step, Reason>
    ensures done { (held w : ℕ) → OpenDone held w (mov_by name value) books.old result books.new }
    ensures books { books.new ≡ after_mov books.old name value }
{
    if books.ledger.find(name).is_some() {
        return Err(Reason::Name);
    }
    books.values.bind(name, value)?;
    Ok(QUIET)
}

// The three bookings are never inlined: what one gives back would lie on the judge's stack all the time.

// Columns are allocated, unless the name is bound to a value (6) or the ledger refuses.
#[inline(never)]
fn alloc(books: &mut Books, warp: u8, name: Name, columns: u32) -> Result<Step, Reason>
    ensures done { (held : ℕ) → OpenDone held warp (Alloc name columns) books.old result books.new }
    ensures reason { answered result ≡ alloc_reason books.old warp name columns }
    ensures step { IfOk result (λ s. s ≡ alloc_step books.old warp name columns) }
    ensures books { books.new ≡ after_alloc books.old warp name columns }
{
    if books.values.find(name).is_some() {
        return Err(Reason::Name);
    }
    let booked = books.ledger.alloc(name, warp, columns);
    let start = booked.start?;
    books.ledger = booked.next;
    Ok(Step {
        asked: Some(Span { start, columns }),
        returned: 0,
    })
}

// An allocation is released, unless the ledger refuses, or a load or store is outstanding on it (18).
#[inline(never)]
fn release(books: &mut Books, warp: u8, name: Name, columns: u32) -> Result<Step, Reason>
    ensures done { (held : ℕ) → OpenDone held warp (Dealloc name columns) books.old result books.new }
    ensures reason { answered result ≡ release_reason books.old warp name columns }
    ensures step { IfOk result (λ s. s ≡ release_step columns) }
    ensures books { books.new ≡ after_release books.old warp name columns }
{
    let booked = books.ledger.release(name, warp, columns);
    booked.start?;
    if books.outstanding.is_busy(&books.ledger, name) {
        return Err(Reason::Outstanding);
    }
    books.ledger = booked.next;
    Ok(Step {
        asked: None,
        returned: columns,
    })
}

// No more allocs, unless the ledger refuses.
#[inline(never)]
fn relinquish(books: &mut Books, warp: u8) -> Result<Step, Reason>
    ensures done { (held : ℕ) → OpenDone held warp Relinquish books.old result books.new }
    ensures reason { answered result ≡ relinquish_reason books.old warp }
    ensures step { IfOk result (λ s. s ≡ quiet) }
    ensures books { books.new ≡ after_relinquish books.old warp }
{
    let booked = books.ledger.relinquish(warp);
    booked.start?;
    books.ledger = booked.next;
    Ok(QUIET)
}

// A load or store is outstanding from here on, unless it is refused.
fn access(books: &mut Books, warp: u8, transfer: Transfer, a: Access) -> Result<Step, Reason>
    requires { warp < 4 }
    ensures done { (held : ℕ) → OpenDone held warp (access_by transfer a) books.old result books.new }
    ensures books { books.new ≡ after_access books.old transfer warp a.address.base result }
{
    let start = checks::access_judged(&books.ledger, warp, a)?;
    books.outstanding = books.outstanding.begin(transfer, warp, start / 32);
    Ok(QUIET)
}

// A warp waits for its loads, or for its stores.
fn wait(books: &mut Books, warp: u8, transfer: Transfer) -> Result<Step, Reason>
    requires { warp < 4 }
    ensures done { (held : ℕ) → OpenDone held warp (wait_by transfer) books.old result books.new }
    ensures step { result ≡ Ok quiet }
    ensures books { books.new ≡ with_outstanding books.old (waited books.old.outstanding transfer warp) }
{
    books.outstanding = books.outstanding.wait(transfer, warp);
    Ok(QUIET)
}

// An mma changes nothing.
fn multiply(books: &Books, m: Mma) -> Result<Step, Reason>
    ensures { (held w : ℕ) → OpenDone held w (Multiply m) books.now result books.now }
{
    checks::mma_reason(&books.ledger, &books.values, m)?;
    Ok(QUIET)
}

// Exit, unless columns are held (15).
fn leave(books: &mut Books, held: u32) -> Result<Step, Reason>
    ensures done { (w : ℕ) → OpenDone held w Exit books.old result books.new }
    ensures step { result ≡ exit_of held }
    ensures books { books.new ≡ after_exit books.old held }
{
    if held != 0 {
        return Err(Reason::Exit);
    }
    books.exited = true;
    Ok(QUIET)
}

// One statement of a warp, judged and booked; `held` is what the lines before it asked for less what they gave back. Of one
// that is refused the books stay as they were.
pub fn statement(books: &mut Books, held: u32, warp: u8, t: Statement) -> Result<Step, Reason>
    requires { warp < 4 }
    ensures { StatementDone held warp t books.old result books.new }
{
    if books.exited {
        return Err(checks::closed_reason(t));
    }
    match t {
        Statement::Mov32(name, v) => mov(books, name, Value::B32(v)),
        Statement::Mov64(name, v) => mov(books, name, Value::B64(v)),
        Statement::Alloc(name, n) => alloc(books, warp, name, n),
        Statement::Dealloc(name, n) => release(books, warp, name, n),
        Statement::Relinquish => relinquish(books, warp),
        Statement::Load(a) => access(books, warp, Transfer::Load, a),
        Statement::Store(a) => access(books, warp, Transfer::Store, a),
        Statement::WaitLoad => wait(books, warp, Transfer::Load),
        Statement::WaitStore => wait(books, warp, Transfer::Store),
        Statement::FenceBefore | Statement::FenceAfter => Ok(QUIET),
        Statement::Multiply(m) => multiply(books, m),
        Statement::Exit => leave(books, held),
    }
}
