// Registers, lanes and columns of an access, from one table, and reason 5's test.
#![tactic(auto)]

ghost use Rattle.std.specs.Prelude.{◌≡◌};
ghost use Rattle.statement.specs.Cells.{times, registers_for, lanes_for, columns_for, miscounted, counted};
ghost use Rattle.cells.specs.Rows.{row_of};

use statement::{Access, Num, Shape, Statement};

// A row of the table: registers for each N, lanes, columns for each N, largest N.
#[derive(Clone, Copy)]
pub struct Row {
    pub registers: usize,
    pub lanes: usize,
    pub columns: usize,
    pub largest: usize,
}

// The N of .xN.
pub fn times_of(num: Num) -> usize
    ensures { result ≡ times num }
{
    match num {
        Num::X1 => 1,
        Num::X2 => 2,
        Num::X4 => 4,
        Num::X8 => 8,
        Num::X16 => 16,
        Num::X32 => 32,
        Num::X64 => 64,
        Num::X128 => 128,
    }
}

pub fn row_of(shape: Shape) -> Row
    ensures { result ≡ row_of shape }
{
    match shape {
        Shape::S32x32 => Row {
            registers: 1,
            lanes: 32,
            columns: 1,
            largest: 128,
        },
        Shape::S16x64 => Row {
            registers: 1,
            lanes: 16,
            columns: 2,
            largest: 128,
        },
        Shape::S16x128 => Row {
            registers: 2,
            lanes: 16,
            columns: 4,
            largest: 64,
        },
        Shape::S16x256 => Row {
            registers: 4,
            lanes: 16,
            columns: 8,
            largest: 32,
        },
    }
}

// How many registers an access moves.
pub fn registers(shape: Shape, num: Num) -> usize
    ensures { result ≡ registers_for shape num }
{
    let c = row_of(shape);
    c.registers * times_of(num)
}

// How many lanes an access covers.
pub fn lanes(shape: Shape) -> usize
    ensures { result ≡ lanes_for shape }
{
    let c = row_of(shape);
    c.lanes
}

// How many columns an access covers.
pub fn columns(shape: Shape, num: Num) -> usize
    ensures { result ≡ columns_for shape num }
{
    let c = row_of(shape);
    c.columns * times_of(num)
}

// Reason 5: N over the shape's largest, or another count of registers.
pub fn is_miscounted(a: Access) -> bool
    ensures { result ≡ miscounted a }
{
    let shape = a.shape;
    let num = a.num;
    let c = row_of(shape);
    (c.largest < times_of(num)) | (a.registers != registers(shape, num))
}

// Reason 5's test of any statement.
pub fn is_counted(t: Statement) -> bool
    ensures { result ≡ counted t }
{
    match t {
        Statement::Load(a) | Statement::Store(a) => !is_miscounted(a),
        _ => true,
    }
}
