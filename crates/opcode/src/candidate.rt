// Which opcode a text can start with: a few bytes tell.
ghost use Rattle.std.specs.Prelude.{◌≡◌, get_or};
ghost use Rattle.opcode.specs.Candidates.{shape_by, shape_of, num_place, num_at, num_in, kind_place, kind_at, mma_of, mma_in, mov_in, wait_in, fence_in, tcgen05_in, candidate_in};

use instruction::Kind;
use statement::{Num, Opcode, Shape};

// The byte at a position, 0 past the end.
pub fn byte(w: &[u8], at: usize) -> u8
    ensures { result ≡ get_or w.now at 0 }
{
    w.get(at).copied().unwrap_or(0)
}

#[tactic(auto, unfolding(crate::specs::Candidates::shape_by))]
pub fn shape_by(x: u8) -> Shape
    ensures { result ≡ shape_by x }
{
    match x {
        b'3' => Shape::S32x32,
        b'6' => Shape::S16x64,
        b'1' => Shape::S16x128,
        _ => Shape::S16x256,
    }
}

// Where the digits of .xN stand.
pub fn num_place(shape: Shape) -> usize
    ensures { result ≡ num_place shape }
{
    match shape {
        Shape::S32x32 | Shape::S16x64 => 32,
        Shape::S16x128 | Shape::S16x256 => 33,
    }
}

// By the first two bytes of N and what follows it.
#[tactic(auto, unfolding(crate::specs::Candidates::num_at))]
pub fn num_at(x: u8, y: u8) -> Num
    ensures { result ≡ num_at x y }
{
    match (x, y) {
        (b'1', b'6') => Num::X16,
        (b'1', b'2') => Num::X128,
        (b'1', _) => Num::X1,
        (b'2', _) => Num::X2,
        (b'3', _) => Num::X32,
        (b'4', _) => Num::X4,
        (b'6', _) => Num::X64,
        _ => Num::X8,
    }
}

// Where the kind stands.
pub fn kind_place(ws: bool, sp: bool) -> usize
    ensures { result ≡ kind_place ws sp }
{
    match (ws, sp) {
        (false, false) => 31,
        (true, true) => 37,
        _ => 34,
    }
}

// By the first two bytes: f16, tf32, f8f6f4, i8.
#[tactic(auto, unfolding(crate::specs::Candidates::kind_at))]
pub fn kind_at(x: u8, y: u8) -> Kind
    ensures { result ≡ kind_at x y }
{
    match (x, y) {
        (b't', _) => Kind::Tf32,
        (b'i', _) => Kind::I8,
        (_, b'1') => Kind::F16,
        _ => Kind::F8f6f4,
    }
}

#[tactic(auto, unfolding(crate::specs::Candidates::shape_of))]
pub fn shape_of(w: &[u8]) -> Shape
    ensures { result ≡ shape_of w.now }
{
    shape_by(byte(w, 27))
}

#[tactic(auto, unfolding(crate::specs::Candidates::num_in))]
pub fn num_in(w: &[u8]) -> Num
    ensures { result ≡ num_in w.now }
{
    let p = num_place(shape_of(w));
    num_at(byte(w, p), byte(w, p + 1))
}

#[tactic(auto, unfolding(crate::specs::Candidates::mma_of))]
pub fn mma_of(ws: bool, sp: bool, w: &[u8]) -> Opcode
    ensures { result ≡ mma_of ws sp w.now }
{
    let p = kind_place(ws, sp);
    Opcode::Multiply {
        ws,
        sp,
        kind: kind_at(byte(w, p), byte(w, p + 1)),
    }
}

#[tactic(auto, unfolding(crate::specs::Candidates::mma_in))]
pub fn mma_in(w: &[u8]) -> Opcode
    ensures { result ≡ mma_in w.now }
{
    match byte(w, 12) {
        b'w' => mma_of(true, byte(w, 15) == b's', w),
        x => mma_of(false, x == b's', w),
    }
}

pub fn wait_by(w: &[u8]) -> Opcode
    ensures { result ≡ wait_in w.now }
{
    match byte(w, 14) {
        b'l' => Opcode::WaitLoad,
        _ => Opcode::WaitStore,
    }
}

pub fn fence_by(w: &[u8]) -> Opcode
    ensures { result ≡ fence_in w.now }
{
    match byte(w, 15) {
        b'b' => Opcode::FenceBefore,
        _ => Opcode::FenceAfter,
    }
}

pub fn mov_by(w: &[u8]) -> Opcode
    ensures { result ≡ mov_in w.now }
{
    match byte(w, 5) {
        b'3' => Opcode::Mov32,
        _ => Opcode::Mov64,
    }
}

#[tactic(auto, unfolding(crate::specs::Candidates::tcgen05_in))]
pub fn tcgen05_in(x: u8, w: &[u8]) -> Opcode
    ensures { result ≡ tcgen05_in x w.now }
{
    match x {
        b'l' => Opcode::Load {
            shape: shape_of(w),
            num: num_in(w),
        },
        b's' => Opcode::Store {
            shape: shape_of(w),
            num: num_in(w),
        },
        b'm' => mma_in(w),
        b'a' => Opcode::Alloc {
            shared: byte(w, 40) == b's',
        },
        b'd' => Opcode::Dealloc,
        b'w' => wait_by(w),
        b'f' => fence_by(w),
        _ => Opcode::Relinquish,
    }
}

// The one opcode that a text can start with.
#[tactic(auto, unfolding(crate::specs::Candidates::candidate_in))]
pub fn candidate_in(w: &[u8]) -> Opcode
    ensures { result ≡ candidate_in w.now }
{
    match byte(w, 0) {
        b'm' => mov_by(w),
        b't' => tcgen05_in(byte(w, 8), w),
        _ => Opcode::Exit,
    }
}
