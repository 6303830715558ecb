// Fragments, on plain numbers.
ghost use Rattle.std.specs.Prelude.{◌≡◌};
ghost use Rattle.fragment.specs.Fragment as F;

use reasons::answered;

// Where an element of a thread stands: the reason, and the row and column.
pub fn staplehorn_fragment_place(
    matrix: u32,
    thread: u32,
    element: u32,
    place: &mut [u32; 2],
) -> u32
    ensures reason { result ≡ (F.place_read matrix thread element).reason }
    ensures place { place.new ≡ F.place_numbers (F.place_read matrix thread element).place }
{
    let read = fragment::place_of(matrix, thread, element);
    *place = match read {
        Ok(p) => [p.row, p.column],
        Err(_) => [0; 2],
    };
    answered(read)
}

// Who holds a row and column: the reason, and the thread and element.
pub fn staplehorn_fragment_holder(matrix: u32, row: u32, column: u32, holder: &mut [u32; 2]) -> u32
    ensures reason { result ≡ (F.holder_read matrix row column).reason }
    ensures holder { holder.new ≡ F.holder_numbers (F.holder_read matrix row column).holder }
{
    let read = fragment::holder_of(matrix, row, column);
    *holder = match read {
        Ok(h) => [h.thread, h.element],
        Err(_) => [0; 2],
    };
    answered(read)
}
