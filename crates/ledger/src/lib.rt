// The columns of Tensor Memory that a sheet holds, by value: each booking takes the ledger and gives back the next one,
// unchanged on refusal. An allocation has at least 32 of 512 columns and starts at a multiple of 32, so that slot i of 16
// is for the one that starts at column 32 * i.
#![tactic(auto)]

ghost use Rattle.std.specs.Prelude.{◌≡◌, ◌<◌, ◌≤◌, IfOk, IfSome, Some};
ghost use Rattle.laws.specs.Rules.{first_broken};
ghost use Rattle.reasons.specs.Reasons.{number, answered};
ghost use Rattle.ledger.specs.Slots.{in_slots, place_of, past_of};
ghost use Rattle.ledger.specs.Booking.{empty, slot, place, may_book, alloc_rules, release_rules, booking, unchanged, alloc_of, release_of, relinquish_of, found};

use reasons::Reason;
use tokens::Name;

// An allocation in its slot.
#[derive(Clone, Copy)]
pub struct Holding {
    pub name: Name,
    pub columns: u16,
}

// The allocations by slot, and the warp that the first accepted alloc or relinquish fixed.
#[derive(Clone, Copy)]
pub struct Ledger {
    pub slots: [Option<Holding>; 16],
    pub warp: Option<u8>,
    pub relinquished: bool,
}

// The next ledger, or the same ledger and the reason. `start`: of an alloc the first column, else 0.
#[derive(Clone, Copy)]
pub struct Booked {
    pub next: Ledger,
    pub start: Result<u32, Reason>,
}

// The columns of an allocation, from the first on.
#[derive(Clone, Copy)]
pub struct Span {
    pub start: u32,
    pub columns: u32,
}

// The next slot that may be free, once slot i has been looked at.
fn past(start: usize, i: usize, slot: Option<Holding>) -> usize
    requires { (start ≤ 4096) × (i < 16) }
    ensures next { result ≡ past_of start i slot }
    ensures near { result ≤ 4096 }
{
    match slot {
        Some(holding) => start.max(i + usize::from(holding.columns).div_ceil(32)),
        None => start,
    }
}

// The ledger unchanged, and a reason.
fn refused(ledger: Ledger, reason: Reason) -> Booked
    ensures { booking result ≡ unchanged ledger (number reason) }
{
    Booked {
        next: ledger,
        start: Err(reason),
    }
}

impl Ledger {
    // Nothing is allocated, and no warp is fixed.
    pub fn new() -> Ledger
        ensures { result ≡ empty }
    {
        Ledger {
            slots: [None; 16],
            warp: None,
            relinquished: false,
        }
    }

    // The slot of a name, if it has an allocation.
    fn slot_of(&self, name: Name) -> Option<usize>
        ensures { result ≡ slot self.now name }
    {
        self.slots
            .iter()
            .position(|slot| slot.is_some_and(|holding| holding.name == name))
    }

    // The allocation of a name, if it has one.
    #[tactic(auto, unfolding(crate::specs::Booking::found))]
    pub fn find(&self, name: Name) -> Option<Span>
        ensures found { result ≡ found self.now name }
        ensures inside { IfSome result (λ span. span.start < 512) }
    {
        let at = self.slot_of(name)?;
        let holding = self.slots[at]?;
        Some(Span {
            start: at as u32 * 32,
            columns: u32::from(holding.columns),
        })
    }

    // The lowest slot from which the columns requested are free: one pass, with the run of free slots so far.
    fn place_for(&self, requested: u32) -> Option<usize>
        requires { (0 < requested) × (requested ≤ 512) }
        ensures { result ≡ in_slots (place_of self.now.slots requested) }
    {
        let mut start = 0;
        for (i, slot) in self.slots.iter().enumerate() {
            start = past(start, i, *slot);
            if start * 32 + requested as usize <= (i + 1) * 32 {
                return Some(start);
            }
        }
        None
    }

    fn is_allowed(&self, warp: u8) -> bool
        ensures { result ≡ may_book self.now warp }
    {
        self.warp.is_none_or(|own| own == warp)
    }

    // The slot for an alloc; or reason 6, 8, 9, 10 or 11.
    fn may_alloc(&self, name: Name, warp: u8, requested: u32) -> Result<usize, Reason>
        ensures reason { answered result ≡ first_broken (alloc_rules self.now name warp requested) }
        ensures at { IfOk result (λ i. (i ≡ place self.now requested) × (i < 16) × (requested ≤ 512)) }
    {
        if self.find(name).is_some() {
            return Err(Reason::Name);
        }
        if !self.is_allowed(warp) {
            return Err(Reason::Warp);
        }
        request::check(requested)?;
        if self.relinquished {
            return Err(Reason::Relinquished);
        }
        self.place_for(requested).ok_or(Reason::Space)
    }

    // The slot of a dealloc; or reason 6, 8 or 9.
    #[tactic(auto, using(crate::proofs::FoundLaws::found_slot))]
    fn may_release(&self, name: Name, warp: u8, released: u32) -> Result<usize, Reason>
        ensures reason { answered result ≡ first_broken (release_rules self.now name warp released) }
        ensures at { IfOk result (λ i. (slot self.now name ≡ Some i) × (i < 16)) }
    {
        let Some(span) = self.find(name) else {
            return Err(Reason::Name);
        };
        if !self.is_allowed(warp) {
            return Err(Reason::Warp);
        }
        if span.columns != released {
            return Err(Reason::Columns);
        }
        Ok(span.start as usize / 32)
    }

    // Allocates columns at the lowest start, and fixes the warp; or reason 6, 8, 9, 10 or 11.
    #[tactic(auto, using(crate::proofs::BookingLaws::made, crate::proofs::BookingLaws::turned_down), unfolding(crate::specs::Booking::alloc_of))]
    pub fn alloc(mut self, name: Name, warp: u8, requested: u32) -> Booked
        ensures { booking result ≡ alloc_of self name warp requested }
    {
        match self.may_alloc(name, warp, requested) {
            Ok(i) => {
                let columns = requested as u16;
                self.slots[i] = Some(Holding { name, columns });
                self.warp = Some(warp);
                Booked {
                    next: self,
                    start: Ok(i as u32 * 32),
                }
            }
            Err(reason) => refused(self, reason),
        }
    }

    // Releases the allocation of a name, all of its columns; or reason 6, 8 or 9.
    #[tactic(auto, using(crate::proofs::BookingLaws::made, crate::proofs::BookingLaws::turned_down), unfolding(crate::specs::Booking::release_of))]
    pub fn release(mut self, name: Name, warp: u8, released: u32) -> Booked
        ensures { booking result ≡ release_of self name warp released }
    {
        match self.may_release(name, warp, released) {
            Ok(i) => {
                self.slots[i] = None;
                Booked {
                    next: self,
                    start: Ok(0),
                }
            }
            Err(reason) => refused(self, reason),
        }
    }

    // No more allocs, and the warp is fixed; or reason 8.
    #[tactic(auto, unfolding(crate::specs::Booking::relinquish_of))]
    pub fn relinquish(mut self, warp: u8) -> Booked
        ensures { booking result ≡ relinquish_of self warp }
    {
        if !self.is_allowed(warp) {
            return refused(self, Reason::Warp);
        }
        self.warp = Some(warp);
        self.relinquished = true;
        Booked {
            next: self,
            start: Ok(0),
        }
    }
}
