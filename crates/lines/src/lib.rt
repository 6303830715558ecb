// Lines of a sheet: whether a sheet is too large, whether it begins with its header, and the line at a place.
#![tactic(auto)]

ghost use Rattle.std.specs.Prelude.{◌≡◌, ◌+◌, ◌≤◌, cond, length, get_or, eqb};
ghost use Rattle.std.specs.List.{prefix_len};
ghost use Rattle.tokens.specs.Text.{lf};
ghost use Rattle.tokens.specs.Bytes.{all, run_len};
ghost use Rattle.lines.specs.Sheet.{lfs, line_count, oversize, headed, warp_byte, warp_of, plain, line_at};

// The most bytes of a sheet.
pub const BYTES: usize = 65536;

// The most lines of a sheet.
pub const LINES: usize = 4096;

// The bytes of line 1, its LF among them: where line 2 starts.
pub const HEADER: usize = 16;

// A line after the first whose layout is right: its warp, where its statement starts and ends, and where the next line starts.
#[derive(Clone, Copy)]
pub struct Line {
    pub warp: u8,
    pub start: usize,
    pub end: usize,
    pub next: usize,
}

// How many LFs at most 240 bytes have. The loop has no way out but its end and counts in a byte: it is compiled to vector code.
fn count_block(block: &[u8]) -> u8
    requires { length block.now ≤ 240 }
    ensures { (result ≡ lfs block.now) × (result ≤ length block.now) }
{
    let mut n: u8 = 0;
    for x in block {
        n += u8::from(*x == b'\n');
    }
    n
}

// How many LFs there are.
fn count_lfs(s: &[u8]) -> usize
    ensures { (result ≡ lfs s.now) × (result ≤ length s.now) }
{
    let mut n: usize = 0;
    let mut rest = s;
    while let Some((block, more)) = rest.split_first_chunk::<240>() {
        n += usize::from(count_block(block));
        rest = more;
    }
    n + usize::from(count_block(rest))
}

// How many lines there are: those that an LF ends, and one more where bytes follow the last LF.
pub fn count_lines(s: &[u8]) -> usize
    ensures { result ≡ line_count s.now }
{
    let n = count_lfs(s);
    if s.len() == 0 {
        return 0;
    }
    if s[s.len() - 1] == b'\n' {
        return n;
    }
    n + 1
}

// Reason 1: too many bytes or lines.
pub fn size_fault(sheet: &[u8]) -> bool
    ensures { result ≡ oversize sheet.now }
{
    if BYTES < sheet.len() {
        return true;
    }
    LINES < count_lines(sheet)
}

// Whether line 1 is the header.
pub fn is_headed(sheet: &[u8]) -> bool
    ensures { result ≡ headed sheet.now }
{
    sheet.starts_with(b"sheet\t1\tsm_100a\n")
}

// The warp that a byte stands for, if it is a warp byte: * is warp 0.
#[tactic(auto, unfolding(crate::specs::Sheet::warp_byte, crate::specs::Sheet::warp_of))]
fn warp_of(b: u8) -> Option<u8>
    ensures { result ≡ cond (warp_byte b) (Some (warp_of b)) None }
{
    match b {
        b'*' => Some(0),
        b'0'..=b'3' => Some(b - b'0'),
        _ => None,
    }
}

fn is_plain(b: u8) -> bool
    ensures { result ≡ plain b }
{
    (b' ' <= b) & (b <= b'~')
}

// Whether 16 bytes are all 32 to 126. No way out but the end: vector code.
fn plain_block(block: &[u8; 16]) -> bool
    ensures { result ≡ all plain block.now }
{
    let mut good = true;
    for x in block {
        good = good & is_plain(*x);
    }
    good
}

// What is left after the blocks of 16 bytes 32 to 126 at the head.
fn past_blocks<'a>(s: &'a [u8]) -> &'a [u8]
    ensures { (length result.now ≤ length s.now) × (length result.now + run_len plain s.now ≡ length s.now + run_len plain result.now) }
{
    let mut rest = s;
    while let Some((block, more)) = rest.split_first_chunk::<16>() {
        if !plain_block(block) {
            return rest;
        }
        rest = more;
    }
    rest
}

// How many bytes 32 to 126 there are at the head, one by one.
fn plain_count(s: &[u8]) -> usize
    ensures { result ≡ prefix_len plain s.now }
{
    s.iter().take_while(|b| is_plain(**b)).count()
}

// How many bytes 32 to 126 there are at the head. Each byte is looked at once, in the last block of 16 at most twice.
fn plain_len(s: &[u8]) -> usize
    ensures { result ≡ run_len plain s.now }
{
    let rest = past_blocks(s);
    s.len() - rest.len() + plain_count(rest)
}

// Whether an LF stands at a place.
fn lf_at(text: &[u8], at: usize) -> bool
    ensures { result ≡ eqb (get_or text.now at 0) lf }
{
    matches!(text.get(at), Some(b'\n'))
}

// The line that starts at a place.
fn find_line(s: &[u8], at: usize) -> Option<Line>
    ensures { result ≡ line_at s.now at }
{
    let (mark, text) = s.get(at..)?.split_first()?;
    let warp = warp_of(*mark)?;
    let (tab, text) = text.split_first()?;
    let n = plain_len(text);
    if (*tab == b'\t') & lf_at(text, n) & (n <= 2046) {
        let start = at + 2;
        let end = start + n;
        let next = end + 1;
        Some(Line {
            warp,
            start,
            end,
            next,
        })
    } else {
        None
    }
}

// A sheet and a place in it: it gives out a line at a time. Few functions are over it; the work is in `find_line`.
#[derive(Clone, Copy)]
pub struct LineReader<'a> {
    pub src: &'a [u8],
    pub at: usize,
}

impl<'a> LineReader<'a> {
    pub fn new(src: &'a [u8], at: usize) -> LineReader<'a>
        ensures { (result.src ≡ src.entry) × (result.at ≡ at) }
    {
        LineReader { src, at }
    }

    // The line at the reader's place.
    pub fn line(self) -> Option<Line>
        ensures { result ≡ line_at self.entry.src.now self.entry.at }
    {
        find_line(self.src, self.at)
    }

    // The reader of the same sheet at another place, where its line says that the next one starts.
    pub fn advance(self, at: usize) -> LineReader<'a>
        ensures { (result.src ≡ self.entry.src) × (result.at ≡ at) }
    {
        LineReader { src: self.src, at }
    }
}

// The line that starts at a place, and where the reader stands after it.
pub fn line_at(sheet: &[u8], at: usize) -> Option<Line>
    ensures { result ≡ line_at sheet.now at }
{
    let reader = LineReader::new(sheet, at);
    let line = reader.line()?;
    let next = reader.advance(line.next).at;
    Some(Line { next, ..line })
}
