// The instruction descriptor: 32 bits, read and written under an opcode: a kind, `.ws` and `.sp`. Most tests go by `&` and `|`: by `&&`, `||` and a `matches!` of scattered
// numbers each is a branch, and on fields of all sorts a call of `encode_fields` or `listed_fields` takes 1.4 to 2.8 times the time.
#![tactic(auto)]

ghost use Rattle.std.specs.Prelude.{◌<◌, ◌≡◌, ◌&&◌};
ghost use Rattle.laws.specs.Tests.{all, is_some};
ghost use Rattle.laws.specs.Layout.{pack, says, stands, ranges};
ghost use Rattle.laws.specs.Rules.{first_broken};
ghost use Rattle.laws.proofs.LayoutLaws.{Inside};
ghost use Rattle.reasons.specs.Reasons.{answered};
ghost use Rattle.instruction.specs.Instruction.{layout, dtype_of, element_of, values, fields_in, named, typed, flags, fields_read, encoded_numbers, keeps, decoded, m_listed, steps, n_listed, types_listed, listing, fields_reason, dense_k, k_of, judged, read_answer, word_answer, judged_answer};

use reasons::Reason;

#[derive(Clone, Copy, PartialEq, Eq)]
pub enum Kind {
    F16,
    Tf32,
    F8f6f4,
    I8,
}

// A kind with `.ws` and `.sp`.
#[derive(Clone, Copy)]
pub struct Opcode {
    pub kind: Kind,
    pub ws: bool,
    pub sp: bool,
}

// The fields of a descriptor as numbers: types by their codes, flags as 0 and 1.
#[derive(Clone, Copy)]
pub struct Fields {
    pub selector: u32,
    pub sparse: u32,
    pub saturate: u32,
    pub dtype: u32,
    pub atype: u32,
    pub btype: u32,
    pub anegate: u32,
    pub bnegate: u32,
    pub atranspose: u32,
    pub btranspose: u32,
    pub n: u32,
    pub m: u32,
    pub shift: u32,
}

// What an mma needs of its instruction descriptor: whether it is listed, and N where the word reads.
#[derive(Clone, Copy)]
pub struct Judged {
    pub listed: Result<(), Reason>,
    pub n: u32,
}

// A code is a dtype's.
fn known_dtype(c: u32) -> bool
    ensures { result ≡ is_some (dtype_of c) }
{
    matches!(c, 0 | 1 | 2)
}

// The bits that always hold one value hold it.
fn fixed_stand(word: u32) -> bool
    ensures { result ≡ all (stands layout word) }
{
    ((word >> 6) % 2 == 0) & ((word >> 23) % 2 == 0) & ((word >> 29) % 2 == 0)
}

// n is a multiple of `by`, from `least` to `most`.
fn in_steps(least: u32, most: u32, by: u32, n: u32) -> bool
    requires { 0 < by }
    ensures { result ≡ steps least most by n }
{
    (least <= n) & (n <= most) & (n % by == 0)
}

impl Kind {
    // A code is that of a type of the kind.
    fn has_element(self, c: u32) -> bool
        ensures { result ≡ is_some (element_of self c) }
    {
        match self {
            Kind::F16 => c <= 1,
            Kind::Tf32 => c == 2,
            Kind::F8f6f4 => (c <= 5) & (c != 2),
            Kind::I8 => c <= 1,
        }
    }

    // The dtype and both types are such as the kind can have.
    fn has_types(self, f: Fields) -> bool
        ensures { result ≡ typed self (values f) }
    {
        known_dtype(f.dtype) & self.has_element(f.atype) & self.has_element(f.btype)
    }

    // The dtype is listed for the kind and the two types, by their codes.
    fn lists_types(self, f: Fields) -> bool
        ensures { result ≡ types_listed self f.dtype f.atype f.btype }
    {
        match self {
            Kind::F16 => (f.atype == f.btype)
                & ((f.dtype == 1) | ((f.dtype == 0) & (f.atype == 0))),
            Kind::Tf32 => f.dtype == 1,
            Kind::F8f6f4 => (f.dtype == 0) | (f.dtype == 1),
            Kind::I8 => f.dtype == 2,
        }
    }

    // K of a dense opcode.
    fn dense_k(self) -> u32
        ensures { result ≡ dense_k self }
    {
        match self {
            Kind::F16 => 16,
            Kind::Tf32 => 8,
            Kind::F8f6f4 | Kind::I8 => 32,
        }
    }
}

impl Fields {
    // The fields of a word.
    fn split(word: u32) -> Fields
        ensures { result ≡ fields_in (says layout word) }
    {
        Fields {
            selector: (word >> 0) % 4,
            sparse: (word >> 2) % 2,
            saturate: (word >> 3) % 2,
            dtype: (word >> 4) % 4,
            atype: (word >> 7) % 8,
            btype: (word >> 10) % 8,
            anegate: (word >> 13) % 2,
            bnegate: (word >> 14) % 2,
            atranspose: (word >> 15) % 2,
            btranspose: (word >> 16) % 2,
            n: (word >> 17) % 64 * 8,
            m: (word >> 24) % 32 * 16,
            shift: (word >> 30) % 4,
        }
    }

    // Each number has room in its field; N is in eights and M in sixteens.
    fn in_range(self) -> bool
        ensures { result ≡ all (ranges layout (values self)) }
    {
        (self.selector <= 3)
            & (self.sparse <= 1)
            & (self.saturate <= 1)
            & (self.dtype <= 3)
            & (self.atype <= 7)
            & (self.btype <= 7)
            & (self.anegate <= 1)
            & (self.bnegate <= 1)
            & (self.atranspose <= 1)
            & (self.btranspose <= 1)
            & (self.n % 8 == 0)
            & (self.n <= 504)
            & (self.m % 16 == 0)
            & (self.m <= 496)
            & (self.shift <= 3)
    }

    // The word of numbers that are in range.
    fn join(self) -> u32
        requires { Inside layout (values self) }
        ensures { result ≡ pack layout (values self) }
    {
        self.selector
            + self.sparse * (1 << 2)
            + self.saturate * (1 << 3)
            + self.dtype * (1 << 4)
            + self.atype * (1 << 7)
            + self.btype * (1 << 10)
            + self.anegate * (1 << 13)
            + self.bnegate * (1 << 14)
            + self.atranspose * (1 << 15)
            + self.btranspose * (1 << 16)
            + self.n / 8 * (1 << 17)
            + self.m / 16 * (1 << 24)
            + self.shift * (1 << 30)
    }
}

// Thirteen numbers as fields.
impl From<[u32; 13]> for Fields {
    ghost from_gives = { λ l f. f ≡ fields_in l };

    fn from(l: [u32; 13]) -> Fields {
        Fields {
            selector: l[0],
            sparse: l[1],
            saturate: l[2],
            dtype: l[3],
            atype: l[4],
            btype: l[5],
            anegate: l[6],
            bnegate: l[7],
            atranspose: l[8],
            btranspose: l[9],
            n: l[10],
            m: l[11],
            shift: l[12],
        }
    }
}

// Fields as thirteen numbers.
impl From<Fields> for [u32; 13] {
    ghost from_gives = { λ f l. l ≡ values f };

    fn from(f: Fields) -> [u32; 13] {
        [
            f.selector,
            f.sparse,
            f.saturate,
            f.dtype,
            f.atype,
            f.btype,
            f.anegate,
            f.bnegate,
            f.atranspose,
            f.btranspose,
            f.n,
            f.m,
            f.shift,
        ]
    }
}

impl Opcode {
    // Sparsity, saturation, negation and shift are such as the opcode allows.
    fn allows(self, f: Fields) -> bool
        ensures { result ≡ all (flags self.kind self.ws self.sp (values f)) }
    {
        ((f.sparse == 1) == self.sp)
            & ((f.sparse == 1) | (f.selector == 0))
            & ((f.saturate != 1) | (self.kind == Kind::I8))
            & (((f.anegate != 1) & (f.bnegate != 1)) | (self.kind != Kind::I8))
            & ((f.shift == 0) | self.ws)
    }

    // Some numbers name a descriptor that keeps the rules.
    #[tactic(auto, using(crate::proofs::NumberLaws::admitted))]
    fn admits(self, f: Fields) -> bool
        ensures { result ≡ keeps self.kind self.ws self.sp (named self.kind (values f)) }
    {
        self.kind.has_types(f) & self.allows(f)
    }

    // M is listed.
    fn lists_m(self, m: u32) -> bool
        ensures { result ≡ m_listed self.ws m }
    {
        (m == 64) | (m == 128) | (self.ws & (m == 32))
    }

    // N is listed. Without `.ws` i8 takes 8 to 32 in eights, then 48 to 256 in sixteens; the other kinds take 8 to 256 in eights. With `.ws` every
    // kind takes 64 or 128, or 256 when dense.
    fn lists_n(self, n: u32) -> bool
        ensures { result ≡ n_listed self.kind self.ws self.sp n }
    {
        if self.ws {
            (n == 64) | (n == 128) | (!self.sp & (n == 256))
        } else if self.kind == Kind::I8 {
            in_steps(8, 32, 8, n) | in_steps(48, 256, 16, n)
        } else {
            in_steps(8, 256, 8, n)
        }
    }

    // The first listing rule that a shape and types break refuses them.
    fn lists(self, f: Fields) -> Result<(), Reason>
        ensures { answered result ≡ first_broken (listing self.kind self.ws self.sp f) }
    {
        if !self.lists_m(f.m) {
            return Err(Reason::ShapeM);
        }
        if !self.lists_n(f.n) {
            return Err(Reason::ShapeN);
        }
        if !self.kind.lists_types(f) {
            return Err(Reason::Types);
        }
        Ok(())
    }

    // Some numbers are in range, and name a descriptor that keeps the rules: they have a word.
    fn has_word(self, f: Fields) -> bool
        ensures { result ≡ (all (ranges layout (values f)) && keeps self.kind self.ws self.sp (named self.kind (values f))) }
    {
        f.in_range() && self.admits(f)
    }

    // What a word says under the opcode.
    #[inline(always)]
    pub fn decode_fields(self, word: u32) -> Result<Fields, Reason>
        ensures { read_answer result ≡ fields_read (decoded self.kind self.ws self.sp word) }
    {
        let f = Fields::split(word);
        if !fixed_stand(word) {
            return Err(Reason::Descriptor);
        }
        if !self.admits(f) {
            return Err(Reason::Descriptor);
        }
        Ok(f)
    }

    // The word of the descriptor that some numbers name under the opcode.
    #[tactic(auto, unfolding(crate::specs::Instruction::encoded_numbers))]
    pub fn encode_fields(self, f: Fields) -> Result<u32, Reason>
        ensures { word_answer result ≡ encoded_numbers self.kind self.ws self.sp (values f) }
    {
        if !self.has_word(f) {
            return Err(Reason::Descriptor);
        }
        Ok(f.join())
    }

    // Numbers as which no word reads are refused, and those that break a listing rule.
    #[tactic(auto, unfolding(crate::specs::Instruction::encoded_numbers))]
    pub fn listed_fields(self, f: Fields) -> Result<(), Reason>
        ensures { answered result ≡ fields_reason self.kind self.ws self.sp f }
    {
        if !self.has_word(f) {
            return Err(Reason::Descriptor);
        }
        self.lists(f)
    }

    // A word with no reading is refused and has N 0; one that breaks a listing rule is refused, and has its N.
    pub fn judge_word(self, word: u32) -> Judged
        ensures { judged_answer result ≡ judged self.kind self.ws self.sp word }
    {
        match self.decode_fields(word) {
            Ok(f) => Judged {
                listed: self.lists(f),
                n: f.n,
            },
            Err(reason) => Judged {
                listed: Err(reason),
                n: 0,
            },
        }
    }

    // K of the opcode.
    pub fn k(self) -> u32
        ensures { result ≡ k_of self.kind self.sp }
    {
        let dense = self.kind.dense_k();
        if self.sp { dense * 2 } else { dense }
    }
}
