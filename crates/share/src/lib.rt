// The sharing rule of one wire (document 01, "Shares"): what each desk gets of a value, and the value of two shares.
#![tactic(auto)]

ghost use Rattle.std.specs.Prelude.{◌≡◌};
ghost use Rattle.rules.specs.Shares.{share_one, share_two, join};
ghost use Rattle.circuit.specs.Sorts.{meant_sort};

use circuit::sorts::Sort;

// Desk one gets the tape word; for a bool, its lowest bit.
pub fn share_one(sort: Sort, t: u32) -> u32
    ensures { result ≡ share_one (meant_sort sort) t }
{
    match sort {
        Sort::Bit => t % 2,
        _ => t,
    }
}

// Desk two gets the value minus the tape word, wrapped, or the value xor what desk one gets.
pub fn share_two(sort: Sort, v: u32, t: u32) -> u32
    ensures { result ≡ share_two (meant_sort sort) v t }
{
    match sort {
        Sort::Arithmetic => v.wrapping_sub(t),
        _ => v ^ share_one(sort, t),
    }
}

// The value of two shares: their sum, wrapped, or their xor.
pub fn join(sort: Sort, a: u32, b: u32) -> u32
    ensures { result ≡ join (meant_sort sort) a b }
{
    match sort {
        Sort::Arithmetic => a.wrapping_add(b),
        _ => a ^ b,
    }
}
