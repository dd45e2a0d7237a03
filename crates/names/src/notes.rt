// What is noted of each row, in an array of 1,024; and what the row that binds a name says of the name.
ghost use Rattle.std.specs.Prelude.{◌≡◌};
ghost use Rattle.names.specs.Notes.{IsNoted, given_none, given_by};

use table::meaning::{Meaning, Ty};
use table::row::{MAX_ROWS, Row};

// What is noted of each row: memory of a fixed size, since there are at most 1,024 rows.
pub type Notes<T> = [T; MAX_ROWS];

// What is noted of a row; the default of a row past the array.
pub fn at<T: Copy + Default>(notes: &Notes<T>, row: Row) -> T
    ensures { IsNoted T.is_default notes.now row.0 result }
{
    // Made first, since the contract tells the noted value by it: `unwrap_or_default` makes none where a value is noted, and the proof
    // with it didn't close.
    let blank = T::default();
    notes.get(row.0 as usize).copied().unwrap_or(blank)
}

// What the row that binds a name says of it: its type, its length and what it counts. (The length is 0 for what is no array, as in
// the row's word and the rules' `length_found`: an `Option` made of it here would be unmade where an index is compared with it: no plainer.)
#[derive(Clone, Copy, Debug, PartialEq, Eq)]
pub struct Given {
    pub ty: Ty,
    pub length: u32,
    pub count: u32,
}

// What is said of a name that no row binds. (A value, and no `None`: the rules give a name that stands for nothing uint, length 0 and
// 4,294,967,295.)
impl Default for Given {
    ghost is_default = { λ given. given ≡ given_none };

    fn default() -> Given {
        Given {
            ty: Ty::Uint,
            length: 0,
            count: u32::MAX,
        }
    }
}

// A declaration says its type and length; a loop's name is a uint and counts its last; no third kind binds a name.
pub fn given_by(meaning: Meaning) -> Given
    ensures { result ≡ given_by meaning }
{
    match meaning {
        Meaning::Declare { ty, length, .. } => Given {
            ty,
            length,
            ..Given::default()
        },
        Meaning::For { last, .. } => Given {
            count: last,
            ..Given::default()
        },
        _ => Given::default(),
    }
}
