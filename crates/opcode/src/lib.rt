// The opcode at the head of a text: a few bytes tell the one that it can be, and that one's word is taken off the text.
#![tactic(auto)]

mod candidate;

ghost use Rattle.std.specs.Prelude.{◌≡◌, ◌++◌, ◌≤◌, cond, Some, None, length, drop};
ghost use Rattle.tokens.specs.Text.{bytes};
ghost use Rattle.statement.specs.Forms.{word, shape_text, num_text};
ghost use Rattle.opcode.specs.Pieces.{left, without};
ghost use Rattle.opcode.specs.Heads.{head_seen, head_of};
ghost use Rattle.opcode.specs.Candidates.{stops};

use instruction::Kind;
use statement::{Num, Opcode, Shape};

// An opcode and where it ends.
#[derive(Clone, Copy)]
pub struct Head {
    pub opcode: Opcode,
    pub end: usize,
}

// Whether a text starts with p. No way out but the end, so it is vector code: by `strip_prefix`, which goes byte by byte, an opcode takes two fifths
// more instructions.
fn starts(w: &[u8], p: &[u8]) -> bool
    requires { length p.now ≤ length w.now }
    ensures { cond result (Some (drop (length p.now) w.now)) None ≡ without p.now w.now }
{
    let mut same = true;
    for i in 0..p.len() {
        same = same & (w[i] == p[i]);
    }
    same
}

// What a text leaves after p, if it starts with p.
fn past_part<'a>(w: &'a [u8], p: &[u8]) -> Option<&'a [u8]>
    ensures { left result ≡ without p.now w.now }
{
    if w.len() < p.len() {
        return None;
    }
    if !starts(w, p) {
        return None;
    }
    Some(&w[p.len()..])
}

// Past the word of a ld or st, which starts with `start`.
pub fn access<'a>(w: &'a [u8], start: &[u8], shape: Shape, num: Num) -> Option<&'a [u8]>
    ensures { left result ≡ without (start.now ++ (shape_text shape ++ (num_text num ++ bytes ".b32"))) w.now }
{
    let w = past_part(w, start)?;
    let w = past_part(w, spellings::shape(shape))?;
    let w = past_part(w, spellings::num(num))?;
    past_part(w, b".b32")
}

#[tactic(auto, unfolding(statement::specs::Forms::word))]
pub fn load(w: &[u8], shape: Shape, num: Num) -> Option<&[u8]>
    ensures { left result ≡ without (word (Opcode.Load shape num)) w.now }
{
    access(w, b"tcgen05.ld.sync.aligned", shape, num)
}

#[tactic(auto, unfolding(statement::specs::Forms::word))]
pub fn store(w: &[u8], shape: Shape, num: Num) -> Option<&[u8]>
    ensures { left result ≡ without (word (Opcode.Store shape num)) w.now }
{
    access(w, b"tcgen05.st.sync.aligned", shape, num)
}

pub fn alloc(w: &[u8], shared: bool) -> Option<&[u8]>
    ensures { left result ≡ without (word (Opcode.Alloc shared)) w.now }
{
    let w = past_part(w, b"tcgen05.alloc.cta_group::1.sync.aligned")?;
    let w = past_part(w, spellings::option(shared, b".shared::cta"))?;
    past_part(w, b".b32")
}

pub fn multiply(w: &[u8], ws: bool, sp: bool, kind: Kind) -> Option<&[u8]>
    ensures { left result ≡ without (word (Opcode.Multiply ws sp kind)) w.now }
{
    let w = past_part(w, b"tcgen05.mma")?;
    let w = past_part(w, spellings::option(ws, b".ws"))?;
    let w = past_part(w, spellings::option(sp, b".sp"))?;
    let w = past_part(w, b".cta_group::1.kind::")?;
    past_part(w, spellings::kind(kind))
}

// What a text leaves after an opcode's word, if it starts with it.
#[tactic(auto, unfolding(statement::specs::Forms::word))]
pub fn past(w: &[u8], o: Opcode) -> Option<&[u8]>
    ensures { left result ≡ without (word o) w.now }
{
    match o {
        Opcode::Mov32 => past_part(w, b"mov.b32"),
        Opcode::Mov64 => past_part(w, b"mov.b64"),
        Opcode::Alloc { shared } => alloc(w, shared),
        Opcode::Dealloc => past_part(w, b"tcgen05.dealloc.cta_group::1.sync.aligned.b32"),
        Opcode::Relinquish => past_part(
            w,
            b"tcgen05.relinquish_alloc_permit.cta_group::1.sync.aligned",
        ),
        Opcode::Load { shape, num } => load(w, shape, num),
        Opcode::Store { shape, num } => store(w, shape, num),
        Opcode::WaitLoad => past_part(w, b"tcgen05.wait::ld.sync.aligned"),
        Opcode::WaitStore => past_part(w, b"tcgen05.wait::st.sync.aligned"),
        Opcode::FenceBefore => past_part(w, b"tcgen05.fence::before_thread_sync"),
        Opcode::FenceAfter => past_part(w, b"tcgen05.fence::after_thread_sync"),
        Opcode::Multiply { ws, sp, kind } => multiply(w, ws, sp, kind),
        Opcode::Exit => past_part(w, b"exit"),
    }
}

// Whether no byte of an opcode is next.
fn stops(w: &[u8]) -> bool
    ensures { result ≡ stops w.now }
{
    match w {
        [next, ..] => !lexer::bytes::is_opcode(*next),
        [] => true,
    }
}

// Whether no byte of an opcode is next at a position.
pub fn stops_at(w: &[u8], at: usize) -> bool
    ensures { result ≡ stops (drop at w.now) }
{
    if at < w.len() { stops(&w[at..]) } else { true }
}

// The opcode at the head of a text.
pub fn head_of(w: &[u8]) -> Option<Head>
    ensures { head_seen w.now result ≡ head_of w.now }
{
    let opcode = candidate::candidate_in(w);
    let rest = past(w, opcode)?;
    if !stops(rest) {
        return None;
    }
    Some(Head {
        opcode,
        end: w.len() - rest.len(),
    })
}
