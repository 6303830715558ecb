// Fragments, on plain numbers.
ghost use Rattle.std.specs.Prelude.{◌≡◌};
ghost use Rattle.fragment.specs.Fragment as F;

// Where an element of a thread stands: the reason, and the row and column.
#[unsafe(no_mangle)]
pub extern "C" fn staplehorn_fragment_place(
    matrix: u32,
    thread: u32,
    element: u32,
    place: &mut [u32; 2],
) -> u32
    ensures reason { result ≡ (F.place_read matrix thread element).reason }
    ensures place { place.new ≡ F.place_numbers (F.place_read matrix thread element).place }
{
    staplehorn::fragments::staplehorn_fragment_place(matrix, thread, element, place)
}

// Who holds a row and column: the reason, and the thread and element.
#[unsafe(no_mangle)]
pub extern "C" fn staplehorn_fragment_holder(
    matrix: u32,
    row: u32,
    column: u32,
    holder: &mut [u32; 2],
) -> u32
    ensures reason { result ≡ (F.holder_read matrix row column).reason }
    ensures holder { holder.new ≡ F.holder_numbers (F.holder_read matrix row column).holder }
{
    staplehorn::fragments::staplehorn_fragment_holder(matrix, row, column, holder)
}
