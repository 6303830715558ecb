// The typed statement, and why a text is none; what they mean, how they are read and written stands in specs/.
#![tactic(auto)]

ghost use Rattle.std.specs.Prelude.{◌≡◌};
ghost use Rattle.statement.specs.Reading.{misread_reason, misread_place};

use instruction::Kind;
use reasons::Reason;
use tokens::Name;

// The largest numbers.
pub const MAX32: u64 = 0xffff_ffff;

pub const MAX64: u64 = 0xffff_ffff_ffff_ffff;

// The most names of a list.
pub const NAMES: usize = 128;

// SHAPE of an access: lanes by bits.
#[derive(Clone, Copy)]
pub enum Shape {
    S32x32,
    S16x64,
    S16x128,
    S16x256,
}

// NUM of an access, 1 to 128.
#[derive(Clone, Copy)]
pub enum Num {
    X1,
    X2,
    X4,
    X8,
    X16,
    X32,
    X64,
    X128,
}

// An address in tensor memory: a name, and an offset from what it stands for.
#[derive(Clone, Copy)]
pub struct Address {
    pub base: Name,
    pub offset: u32,
}

// Operand a of an mma.
#[derive(Clone, Copy)]
pub enum Operand {
    Descriptor(Name),
    Address(Address),
}

// An mma; the metadata of a sparse a stands with `.sp` alone.
#[derive(Clone, Copy)]
pub struct Mma {
    pub ws: bool,
    pub kind: Kind,
    pub d: Address,
    pub a: Operand,
    pub b: Name,
    pub metadata: Option<Address>,
    pub idesc: Name,
    pub predicate: Name,
}

// A ld or st. The names of its registers stand beside the statement: here is how many there are.
#[derive(Clone, Copy)]
pub struct Access {
    pub shape: Shape,
    pub num: Num,
    pub registers: usize,
    pub address: Address,
}

// A ld, from Tensor Memory to registers, or a st, the other way.
#[derive(Clone, Copy)]
pub enum Transfer {
    Load,
    Store,
}

#[derive(Clone, Copy)]
pub enum Statement {
    Mov32(Name, u32),
    Mov64(Name, u64),
    Alloc(Name, u32),
    Dealloc(Name, u32),
    Relinquish,
    Load(Access),
    Store(Access),
    WaitLoad,
    WaitStore,
    FenceBefore,
    FenceAfter,
    Multiply(Mma),
    Exit,
}

// An opcode, one for each word. `shared`: with `.shared::cta`.
#[derive(Clone, Copy)]
pub enum Opcode {
    Mov32,
    Mov64,
    Alloc { shared: bool },
    Dealloc,
    Relinquish,
    Load { shape: Shape, num: Num },
    Store { shape: Shape, num: Num },
    WaitLoad,
    WaitStore,
    FenceBefore,
    FenceAfter,
    Multiply { ws: bool, sp: bool, kind: Kind },
    Exit,
}

// Why a text is no statement.
#[derive(Clone, Copy, Debug, PartialEq, Eq)]
pub enum Misread {
    // no form can go on at the token at this position
    NoForm(usize),
    // the number at this position is out of range
    TooLarge(usize),
}

impl Misread {
    // The reason that it is refused for.
    pub fn reason(self) -> Reason
        ensures { result ≡ misread_reason self }
    {
        match self {
            Misread::NoForm(_) => Reason::Form,
            Misread::TooLarge(_) => Reason::Number,
        }
    }

    // Where it was seen.
    pub fn place(self) -> usize
        ensures { result ≡ misread_place self }
    {
        match self {
            Misread::NoForm(at) | Misread::TooLarge(at) => at,
        }
    }
}

// A statement, or why a text is none.
pub type Reading = Result<Statement, Misread>;

// What a column points at: the line's first byte, where its warp stands; the token that no form has there, or the number that is out of range; the opcode; the name of an
// operand, inside its bracket where it has one; an operand's first byte. Operands are counted from 0.
#[derive(Clone, Copy)]
pub enum Position {
    Start,
    Token,
    Opcode,
    Name(usize),
    Operand(usize),
}
