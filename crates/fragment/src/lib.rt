// The fragments of the warp-level `mma.m16n8k16` on f16: which thread of a warp holds which element of the matrices A, B and C.
#![tactic(auto)]

ghost use Rattle.std.specs.Prelude.{◌*◌, ◌<◌, ◌≡◌, true, get_or, Some};
ghost use Rattle.fragment.specs.Fragment as F;

use reasons::Reason;

mod tables;

#[derive(Clone, Copy)]
pub enum Matrix {
    A,
    B,
    C,
}

// A place of a matrix.
#[derive(Clone, Copy)]
pub struct Place {
    pub row: u32,
    pub column: u32,
}

// A thread of the warp, and one of its elements.
#[derive(Clone, Copy)]
pub struct Holder {
    pub thread: u32,
    pub element: u32,
}

// The holder by the two sides of its place, and which of a thread's pairs of elements it is in.
fn held(across: u32, along: u32, pair: u32) -> Holder
    requires { pair < 4 }
    ensures { result ≡ F.held_at across along pair }
{
    Holder {
        thread: across % 8 * 4 + along % 8 / 2,
        element: pair * 2 + along % 2,
    }
}

impl Matrix {
    // The matrix of a number.
    fn of_number(n: u32) -> Option<Matrix>
        ensures { result ≡ F.matrix_of n }
    {
        match n {
            0 => Some(Matrix::A),
            1 => Some(Matrix::B),
            2 => Some(Matrix::C),
            _ => None,
        }
    }

    // How many elements each thread holds.
    fn elements(self) -> u32
        ensures { result ≡ F.elements self }
    {
        match self {
            Matrix::A => 8,
            Matrix::B | Matrix::C => 4,
        }
    }

    // How many columns the matrix has.
    fn columns(self) -> u32
        ensures { result ≡ F.columns self }
    {
        match self {
            Matrix::A => 16,
            Matrix::B | Matrix::C => 8,
        }
    }

    // An entry of the matrix's table. The tables are constants of different lengths, so each has an arm of its own.
    fn entry(self, k: usize) -> u8
        requires { k < F.threads * F.elements self }
        ensures { result ≡ F.packed (get_or (F.table_of self) k F.origin) }
    {
        match self {
            Matrix::A => tables::A[k],
            Matrix::B => tables::B[k],
            Matrix::C => tables::C[k],
        }
    }

    // Where a thread's element stands.
    fn place_at(self, thread: u32, element: u32) -> Place
        requires { F.in_warp self (F.holder thread element) ≡ true }
        ensures { result ≡ F.place_of self (F.holder thread element) }
    {
        let n = self.elements();
        let e = self.entry((thread * n + element) as usize);
        Place {
            row: u32::from(e / 16),
            column: u32::from(e % 16),
        }
    }

    // Who holds a place. A thread has one pair in each block of 8 by 8; the blocks are counted down, then to the right.
    fn holder_at(self, row: u32, column: u32) -> Holder
        requires { F.in_matrix self (F.place row column) ≡ true }
        ensures { F.holder_of self (F.place row column) ≡ Some result }
    {
        let pair = row / 8 + column / 8 * 2;
        match self {
            Matrix::A | Matrix::C => held(row, column, pair),
            Matrix::B => held(column, row, pair),
        }
    }

    // The place of a thread's element, if the matrix has such.
    fn place_in(self, thread: u32, element: u32) -> Result<Place, Reason>
        ensures { F.place_answer result ≡ F.place_in (Some self) (F.holder thread element) }
    {
        if thread < 32 && element < self.elements() {
            Ok(self.place_at(thread, element))
        } else {
            Err(Reason::Fragment)
        }
    }

    // The holder of a row and column, if the matrix has such.
    fn holder_in(self, row: u32, column: u32) -> Result<Holder, Reason>
        ensures { F.holder_answer result ≡ F.holder_in (Some self) (F.place row column) }
    {
        if row < 16 && column < self.columns() {
            Ok(self.holder_at(row, column))
        } else {
            Err(Reason::Fragment)
        }
    }
}

// The place of a thread's element in the matrix of a number.
#[tactic(auto, unfolding(crate::specs::Fragment::place_read))]
pub fn place_of(matrix: u32, thread: u32, element: u32) -> Result<Place, Reason>
    ensures { F.place_answer result ≡ F.place_read matrix thread element }
{
    let m = Matrix::of_number(matrix).ok_or(Reason::Fragment)?;
    m.place_in(thread, element)
}

// The holder of a row and column in the matrix of a number.
#[tactic(auto, unfolding(crate::specs::Fragment::holder_read))]
pub fn holder_of(matrix: u32, row: u32, column: u32) -> Result<Holder, Reason>
    ensures { F.holder_answer result ≡ F.holder_read matrix row column }
{
    let m = Matrix::of_number(matrix).ok_or(Reason::Fragment)?;
    m.holder_in(row, column)
}
