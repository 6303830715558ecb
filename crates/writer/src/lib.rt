// Statements, written.
#![tactic(auto)]

mod form;
mod operand;
mod output;

ghost use Rattle.std.specs.Prelude.{◌≡◌, length, take};
ghost use Rattle.statement.specs.Canonical.{count_of, text_of, given};
ghost use Rattle.writer.specs.Outputs.{add_c, written_of, left_by};

use output::Text;
use reasons::Reason;
use statement::{MAX32, MAX64, Statement};
use tokens::Name;

// A statement's text.
fn compose(t: &mut Text, statement: Statement, names: &[Name])
    ensures { t.new ≡ add_c (text_of statement (take (count_of statement) names.now)) (given statement (take (count_of statement) names.now)) t.old }
{
    match statement {
        Statement::Mov32(n, v) => form::name_number(t, b"mov.b32 ", n, b", ", u64::from(v), MAX32),
        Statement::Mov64(n, v) => form::name_number(t, b"mov.b64 ", n, b", ", v, MAX64),
        Statement::Alloc(n, v) => form::name_number(
            t,
            b"tcgen05.alloc.cta_group::1.sync.aligned.b32 [",
            n,
            b"], ",
            u64::from(v),
            MAX32,
        ),
        Statement::Dealloc(n, v) => form::name_number(
            t,
            b"tcgen05.dealloc.cta_group::1.sync.aligned.b32 ",
            n,
            b", ",
            u64::from(v),
            MAX32,
        ),
        Statement::Relinquish => {
            t.put(b"tcgen05.relinquish_alloc_permit.cta_group::1.sync.aligned;")
        }
        Statement::Load(a) => form::load(t, a, names),
        Statement::Store(a) => form::store(t, a, names),
        Statement::WaitLoad => t.put(b"tcgen05.wait::ld.sync.aligned;"),
        Statement::WaitStore => t.put(b"tcgen05.wait::st.sync.aligned;"),
        Statement::FenceBefore => t.put(b"tcgen05.fence::before_thread_sync;"),
        Statement::FenceAfter => t.put(b"tcgen05.fence::after_thread_sync;"),
        Statement::Multiply(m) => form::multiply(t, m),
        Statement::Exit => t.put(b"exit;"),
    }
}

// The canonical text of a statement in the first places of a room, and how long it is; the room is unchanged where it is
// too short, or the statement or its registers' names are not such as reading gives.
pub fn write(statement: Statement, names: &[Name], room: &mut [u8]) -> Result<usize, Reason>
    ensures answer { result ≡ written_of (length room.old) statement (take (count_of statement) names.now) }
    ensures left { room.new ≡ left_by room.old statement (take (count_of statement) names.now) }
{
    let mut t = Text::new();
    compose(&mut t, statement, names);
    let Some(text) = t.text() else {
        return Err(Reason::Room);
    };
    if room.len() < text.len() {
        return Err(Reason::Room);
    }
    room[..text.len()].copy_from_slice(text);
    Ok(text.len())
}
