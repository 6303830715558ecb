// The loads and stores that are not waited for, by value: each line takes them and gives back the next ones. A word for the
// loads of each warp and one for its stores; bit i of a word is for the allocation that starts at column 32 * i.
#![tactic(auto)]

ghost use Rattle.std.specs.Prelude.{◌≡◌, ◌<◌, ◌^◌};
ghost use Rattle.std.specs.Int.Bits.{bit_or};
ghost use Rattle.outstanding.specs.Words.{word_of, bit_at, none, begun, waited, slots_of, busy_on};

use ledger::Ledger;
use statement::Transfer;
use tokens::Name;

#[derive(Clone, Copy)]
pub struct Outstanding {
    pub words: [u16; 8],
}

// Which word is for the loads of a warp, or for its stores.
fn word_of(transfer: Transfer, warp: u8) -> usize
    requires { warp < 4 }
    ensures word { result ≡ word_of transfer warp }
    ensures inside { result < 8 }
{
    let of_loads = usize::from(warp);
    match transfer {
        Transfer::Load => of_loads,
        Transfer::Store => of_loads + 4,
    }
}

fn with_slot(word: u16, slot: u32) -> u16
    requires { slot < 16 }
    ensures { result ≡ bit_or word (2 ^ slot) }
{
    word | (1 << slot)
}

fn has_slot(word: u16, slot: u32) -> bool
    requires { slot < 16 }
    ensures { result ≡ bit_at word slot }
{
    (word >> slot) % 2 == 1
}

impl Outstanding {
    // Nothing is outstanding.
    pub fn new() -> Outstanding
        ensures { result ≡ none }
    {
        Outstanding { words: [0; 8] }
    }

    // One more: by a warp, on the allocation of a slot.
    #[tactic(auto, unfolding(crate::specs::Words::begun))]
    pub fn begin(mut self, transfer: Transfer, warp: u8, slot: u32) -> Outstanding
        requires { (warp < 4) × (slot < 16) }
        ensures { result ≡ begun self transfer warp slot }
    {
        let at = word_of(transfer, warp);
        self.words[at] = with_slot(self.words[at], slot);
        self
    }

    // A warp waits for its loads, or for its stores, on all allocations.
    #[tactic(auto, unfolding(crate::specs::Words::waited))]
    pub fn wait(mut self, transfer: Transfer, warp: u8) -> Outstanding
        requires { warp < 4 }
        ensures { result ≡ waited self transfer warp }
    {
        let at = word_of(transfer, warp);
        self.words[at] = 0;
        self
    }

    // The slots on which anything is outstanding.
    #[tactic(auto, unfolding(crate::specs::Words::slots_of))]
    fn slots(&self) -> u16
        ensures { result ≡ slots_of self.now }
    {
        self.words.iter().fold(0, |all, word| all | word)
    }

    // Whether anything is outstanding on the allocation of a live name; of another name slot 0 is looked at. It is not looked for where nothing is outstanding
    // at all.
    pub fn is_busy(&self, ledger: &Ledger, name: Name) -> bool
        ensures { result ≡ busy_on self.now ledger.now name }
    {
        let slots = self.slots();
        slots != 0 && has_slot(slots, ledger.find(name).map_or(0, |span| span.start / 32))
    }
}
