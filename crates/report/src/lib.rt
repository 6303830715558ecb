// The printed report, put line by line into a lent buffer: what has no room is left out whole.
#![tactic(auto)]

ghost use Rattle.std.specs.Prelude.{◌≡◌, true, Some, length};
ghost use Rattle.pieces.specs.Texts.{added};
ghost use Rattle.tokens.specs.Names.{name_bytes};
ghost use Rattle.report.specs.Report.{head_text, row_text, put_text, put_end};
ghost use Rattle.report.specs.Fields.{line_room, field_text};

use pieces::Text;
use tokens::Name;

// Enough for the report of any sheet: a row of 25 bytes for each line but the first, and 16 more.
pub const ROOM: usize = 16 + 4095 * 25;

// A number of 20 digits, and the byte after it.
const FIELD: usize = 21;

// The longest line has five of them.
const LINE: usize = 5 * FIELD;

type Line = Text<LINE>;

// The numbers of the first line.
#[derive(Clone, Copy)]
pub struct Figures {
    pub reason: u64,
    pub line: u64,
    pub column: u64,
    pub held: u64,
    pub peak: u64,
}

// The bytes w, from a place on, if there is room for all of them: the place after them, else the same place. The room and
// the place go apart: the room is the one that the C interface lends, and no array of ours.
pub fn put(room: &mut [u8], at: usize, w: &[u8]) -> usize
    ensures next { result ≡ put_end (length room.old) at w.now }
    ensures places { room.new ≡ put_text room.old at w.now }
{
    if room.len() < at || room.len() - at < w.len() {
        return at;
    }
    let end = at + w.len();
    room[at..end].copy_from_slice(w);
    end
}

// v in decimal and a byte after it.
fn field(line: &mut Line, v: u64, mark: u8)
    ensures { line.new ≡ added line_room (field_text v mark) true line.old }
{
    line.number(v);
    line.put(&[mark]);
}

fn head_line(f: Figures) -> Line
    ensures { result ≡ Some (head_text f.reason f.line f.column f.held f.peak) }
{
    let mut line = Line::new();
    field(&mut line, f.reason, b'\t');
    field(&mut line, f.line, b'\t');
    field(&mut line, f.column, b'\t');
    field(&mut line, f.held, b'\t');
    field(&mut line, f.peak, b'\n');
    line
}

fn row_line(alloc: Name, start: u64, columns: u64) -> Line
    ensures { result ≡ Some (row_text alloc start columns) }
{
    let mut line = Line::new();
    line.name(alloc);
    line.put(b"\t");
    field(&mut line, start, b'\t');
    field(&mut line, columns, b'\n');
    line
}

// The first line of a report.
#[inline(never)]
pub fn head(room: &mut [u8], at: usize, f: Figures) -> usize
    ensures next { result ≡ put_end (length room.old) at (head_text f.reason f.line f.column f.held f.peak) }
    ensures places { room.new ≡ put_text room.old at (head_text f.reason f.line f.column f.held f.peak) }
{
    put(room, at, head_line(f).text().unwrap())
}

// The row of an alloc.
pub fn row(room: &mut [u8], at: usize, alloc: Name, start: u64, columns: u64) -> usize
    ensures next { result ≡ put_end (length room.old) at (row_text alloc start columns) }
    ensures places { room.new ≡ put_text room.old at (row_text alloc start columns) }
{
    put(room, at, row_line(alloc, start, columns).text().unwrap())
}
