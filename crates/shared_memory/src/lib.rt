// The shared memory descriptor: 64 bits. Addresses and offsets are in bytes.
#![tactic(auto)]

ghost use Rattle.std.specs.Prelude.{◌%◌, ◌≡◌, ◌&&◌, eqb, leb};
ghost use Rattle.std.proofs.Math.Option.{some};
ghost use Rattle.laws.specs.Tests.{all};
ghost use Rattle.laws.specs.Layout.{pack, says, stands, ranges};
ghost use Rattle.laws.proofs.LayoutLaws.{Inside};
ghost use Rattle.shared_memory.specs.Shared.{layout, numbers, named, rules, decoded, encoded, read_answer, word_answer};

use reasons::Reason;

#[derive(Clone, Copy)]
pub struct Shared {
    pub start: u64,
    pub leading: u64,
    pub stride: u64,
    pub base: u64,
    pub mode: u64,
    pub swizzle: u64,
}

// The bits that always hold one value hold it.
fn fixed_stand(word: u64) -> bool
    ensures { result ≡ all (stands layout word) }
{
    ((word >> 14) % 4 == 0)
        & ((word >> 30) % 4 == 0)
        & ((word >> 46) % 8 == 1)
        & ((word >> 53) % 256 == 0)
}

// An address or offset is a multiple of 16 and has room in its field: below 2^18, which one mask tests for all three together.
fn storable(x: u64) -> bool
    ensures { result ≡ (eqb (x % 16) 0 && leb x 262128) }
{
    (x % 16 == 0) & (x < 262144)
}

impl Shared {
    // The fields of a word.
    fn split(word: u64) -> Shared
        ensures { named (says layout word) ≡ some result }
    {
        Shared {
            start: (word >> 0) % 16384 * 16,
            leading: (word >> 16) % 16384 * 16,
            stride: (word >> 32) % 16384 * 16,
            base: (word >> 49) % 8,
            mode: (word >> 52) % 2,
            swizzle: (word >> 61) % 8,
        }
    }

    // Each number has room in its field, and an address or offset is a multiple of 16. By `&`: by `&&` each test is a branch, and a call of `encode` on descriptors of all
    // sorts takes 1.4 times the time.
    fn in_range(self) -> bool
        ensures { result ≡ all (ranges layout (numbers self)) }
    {
        storable(self.start)
            & storable(self.leading)
            & storable(self.stride)
            & (self.mode <= 1)
            & ((self.base <= 7) & (self.swizzle <= 7))
    }

    // A swizzle of 1, 2, 4 or 6 stands with any base offset, and 0 with none. By `|`, as `in_range` by `&`.
    fn follows(self) -> bool
        ensures { result ≡ all (rules self) }
    {
        (self.swizzle == 1)
            | (self.swizzle == 2)
            | (self.swizzle == 4)
            | (self.swizzle == 6)
            | ((self.swizzle == 0) & (self.base == 0))
    }

    // The word of numbers that are in range.
    fn join(self) -> u64
        requires { Inside layout (numbers self) }
        ensures { result ≡ pack layout (numbers self) }
    {
        self.start / 16
            + self.leading / 16 * (1 << 16)
            + self.stride / 16 * (1 << 32)
            + (1 << 46)
            + self.base * (1 << 49)
            + self.mode * (1 << 52)
            + self.swizzle * (1 << 61)
    }
}

// What a word says.
#[tactic(auto, unfolding(crate::specs::Shared::decoded))]
pub fn decode(word: u64) -> Result<Shared, Reason>
    ensures { read_answer result ≡ decoded word }
{
    let d = Shared::split(word);
    if !fixed_stand(word) || !d.follows() {
        return Err(Reason::Descriptor);
    }
    Ok(d)
}

// The word of a descriptor.
#[tactic(auto, unfolding(crate::specs::Shared::encoded))]
pub fn encode(d: Shared) -> Result<u64, Reason>
    ensures { word_answer result ≡ encoded d }
{
    if !d.in_range() || !d.follows() {
        return Err(Reason::Descriptor);
    }
    Ok(d.join())
}
