// A statement's text by itself: its reason and column, and its canonical text.
#![tactic(auto)]

ghost use Rattle.std.specs.Prelude.{◌≡◌, length};
ghost use Rattle.statement.specs.Reading.{read_of, registers_of};
ghost use Rattle.canonical.specs.Alone.{alone_of, alone_in, rewritten, left_of};

use reasons::Reason;
use statement::{Misread, Statement};
use tokens::Name;

// Why a text is refused, and the column that it is found in, from 1.
#[derive(Clone, Copy, Debug, PartialEq, Eq)]
pub struct Refusal {
    pub reason: Reason,
    pub column: usize,
}

// Of a statement: 5 at the opcode for a load or a store whose N or count of registers is wrong.
fn judge_count(t: Statement) -> Result<(), Refusal>
    ensures { alone_in result ≡ alone_of (Ok t) }
{
    if cells::is_counted(t) {
        Ok(())
    } else {
        Err(Refusal {
            reason: Reason::Registers,
            column: 1,
        })
    }
}

// Of a text: 3 or 4 if it does not read, with the place of the token or of the number.
pub fn judge_text(text: &[u8]) -> Result<(), Refusal>
    ensures { alone_in result ≡ alone_of (read_of text.now) }
{
    match reader::read(text) {
        Ok(t) => judge_count(t),
        Err(misread) => {
            let column = misread.place() + 1;
            Err(Refusal {
                reason: misread.reason(),
                column,
            })
        }
    }
}

// The canonical text of a statement in the first places of a room, and how long it is; a text that does not read gives
// its reason, too little room 19, and the room is unchanged then.
pub fn rewrite(text: &[u8], room: &mut [u8]) -> Result<usize, Reason>
    ensures answer { result ≡ rewritten (length room.old) (read_of text.now) (registers_of text.now) }
    ensures left { room.new ≡ left_of room.old (read_of text.now) (registers_of text.now) }
{
    let t = reader::read(text).map_err(Misread::reason)?;
    let mut names = [Name { hi: 0, lo: 0 }; 128];
    reader::registers(text, &mut names);
    writer::write(t, &names, room)
}
