// The spellings of SHAPE, NUM and KIND, each in one place: the reader compares with them, the writer writes them.
#![tactic(auto)]

ghost use Rattle.std.specs.Prelude.{◌≡◌};
ghost use Rattle.statement.specs.Forms.{shape_text, num_text, kind_text, option};

use instruction::Kind;
use statement::{Num, Shape};

pub fn shape(shape: Shape) -> &'static [u8]
    ensures { result.now ≡ shape_text shape }
{
    match shape {
        Shape::S32x32 => b".32x32b",
        Shape::S16x64 => b".16x64b",
        Shape::S16x128 => b".16x128b",
        Shape::S16x256 => b".16x256b",
    }
}

pub fn num(num: Num) -> &'static [u8]
    ensures { result.now ≡ num_text num }
{
    match num {
        Num::X1 => b".x1",
        Num::X2 => b".x2",
        Num::X4 => b".x4",
        Num::X8 => b".x8",
        Num::X16 => b".x16",
        Num::X32 => b".x32",
        Num::X64 => b".x64",
        Num::X128 => b".x128",
    }
}

pub fn kind(kind: Kind) -> &'static [u8]
    ensures { result.now ≡ kind_text kind }
{
    match kind {
        Kind::F16 => b"f16",
        Kind::Tf32 => b"tf32",
        Kind::F8f6f4 => b"f8f6f4",
        Kind::I8 => b"i8",
    }
}

// A part that may be left out.
pub fn option(present: bool, text: &[u8]) -> &[u8]
    ensures { result.now ≡ option present text.now }
{
    if present { text } else { b"" }
}
