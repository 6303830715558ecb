// The reasons of a refusal, each with its published number. docs/FORMAT.md says when each is given.
#![tactic(auto)]

ghost use Rattle.std.specs.Prelude.{◌≡◌};
ghost use Rattle.reasons.specs.Reasons.{number, answered};

#[derive(Clone, Copy, Debug, PartialEq, Eq)]
pub enum Reason {
    // the sheet has too many bytes or lines
    Size = 1,
    // the layout of line 1 or of a line
    Layout = 2,
    // no form matches
    Form = 3,
    // a number is out of range
    Number = 4,
    // N is over the shape's largest, or the count of registers differs
    Registers = 5,
    // a name is unbound, of the wrong sort or width, or taken
    Name = 6,
    // no room for another value name
    Values = 7,
    // the wrong warp, or a lane that is not the warp's
    Warp = 8,
    // an illegal request, or another size at dealloc
    Columns = 9,
    // alloc after relinquish
    Relinquished = 10,
    // no free run of columns
    Space = 11,
    // a descriptor has no reading, or a field to encode is out of range
    Descriptor = 12,
    // M is not listed
    ShapeM = 13,
    // the lane of an mma is not 0, or columns go past the end of the allocation
    Cells = 14,
    // columns held at exit, a line after exit, or no exit
    Exit = 15,
    // the lent list has fewer places than there are allocs
    Starts = 16,
    // dealloc while a load or store is outstanding
    Outstanding = 18,
    // the writer: too little room, or not such as reading gives
    Room = 19,
    // N is not listed
    ShapeN = 20,
    // the types are not listed
    Types = 21,
    // a matrix, thread, element, row or column outside the fragment
    Fragment = 22,
}

impl Reason {
    // The published number.
    pub fn number(self) -> u32
        ensures { result ≡ number self }
    {
        self as u32
    }
}

// The number of an answer: 0 where nothing is refused.
pub fn answered<T: Copy>(answer: Result<T, Reason>) -> u32
    ensures { result ≡ answered answer }
{
    match answer {
        Ok(_) => 0,
        Err(reason) => reason.number(),
    }
}
