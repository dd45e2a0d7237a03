// Sorts by their numbers, for callers that hold numbers, which may be no sort's: each function answers for every number.
ghost use Rattle.std.specs.Prelude.{◌≡◌, slice_index, slice_set};
ghost use Rattle.circuit.specs.Slots.{InTable, slot_of};
ghost use Rattle.circuit.specs.Numbers.{numbers_convert, other_number};

use crate::checks::InputSorts;

// A convert gate goes from 1 to 2, or back, and from or to no other number.
pub fn converts(from: u32, to: u32) -> bool
    ensures { result ≡ numbers_convert from to }
{
    matches!((from, to), (1, 2) | (2, 1))
}

// An earlier gate reads the input at another sort. The table has, at an input's place (that of `InputSorts`), the number of the sort at
// which it was read, and 0 where it was not read.
pub fn clashes(seen: &[u32; 128], desk: u32, number: u32, sort: u32) -> bool
    ensures { InTable desk number → result ≡ other_number (slice_index seen.now (slot_of desk number)) sort }
{
    InputSorts::slot(desk, number).is_some_and(|k| seen[k] != 0 && seen[k] != sort)
}

// An input that is read is noted with the number of its sort, whatever number that is.
pub fn note_input(seen: &mut [u32; 128], desk: u32, number: u32, sort: u32)
    requires { InTable desk number }
    ensures { seen.new ≡ slice_set seen.old (slot_of desk number) sort }
{
    if let Some(k) = InputSorts::slot(desk, number) {
        seen[k] = sort;
    }
}
