// The sorts of wires, and which conversion is needed between them.
ghost use Rattle.std.specs.Prelude.{◌≡◌, not};
ghost use Rattle.rules.specs.Sorts.{same, fits_sort};

// The sort of a wire. (The default stands only in the unused places of an `ArrayVec`.)
#[derive(Clone, Copy, Debug, Default, PartialEq, Eq)]
pub enum Sort {
    // A uint, shared by a sum.
    #[default]
    Arithmetic,
    // A uint, shared bit by bit.
    Boolean,
    // A bool, shared as one bit.
    Bit,
}

// A number that is no sort's.
#[derive(Clone, Copy, Debug, PartialEq, Eq)]
pub struct UnknownSort;

impl TryFrom<u32> for Sort {
    ghost use Rattle.circuit.specs.Sorts.{Numbered};

    type Error = UnknownSort;

    ghost try_from_gives = { Numbered };

    #[tactic(auto, unfolding(rules::specs::Sorts::sort_numbered))]
    fn try_from(number: u32) -> Result<Self, Self::Error> {
        match number {
            1 => Ok(Sort::ARITHMETIC),
            2 => Ok(Sort::BOOLEAN),
            3 => Ok(Sort::BIT),
            _ => Err(UnknownSort),
        }
    }
}

// The number of a sort, as a gate has it. (For compiling.)
impl From<Sort> for u32 {
    ghost use Rattle.rules.specs.Sorts.{sort_number};
    ghost use Rattle.circuit.specs.Sorts.{meant_sort};

    ghost from_gives = { λ sort number. number ≡ sort_number (meant_sort sort) };

    fn from(sort: Sort) -> u32 {
        match sort {
            Sort::Arithmetic => 1,
            Sort::Boolean => 2,
            Sort::Bit => 3,
        }
    }
}

impl Sort {
    // The sorts by name, a form that document 01 names.
    pub const ARITHMETIC: Sort = Sort::Arithmetic;

    pub const BOOLEAN: Sort = Sort::Boolean;

    pub const BIT: Sort = Sort::Bit;

    ghost use Rattle.circuit.specs.Sorts.{sort_from, meant_sort, converts};

    // The sort of a number; any other number is read as boolean.
    #[tactic(auto, unfolding(rules::specs::Sorts::sort_numbered, crate::specs::Sorts::sort_from))]
    pub fn or_boolean(number: u32) -> Sort
        ensures { meant_sort result ≡ sort_from number }
    {
        Sort::try_from(number).unwrap_or(Sort::BOOLEAN)
    }

    // Bringing a wire of this sort to another sort takes a convert gate; to its own, nothing. (For compiling.)
    pub fn needs_convert(self, to: Sort) -> bool
        ensures { result ≡ not (same (meant_sort self) (meant_sort to)) }
    {
        self != to
    }

    // A convert gate goes from arithmetic to boolean, or back.
    pub fn converts_to(self, to: Sort) -> bool
        ensures { result ≡ converts self to }
    {
        matches!(
            (self, to),
            (Sort::Arithmetic, Sort::Boolean) | (Sort::Boolean, Sort::Arithmetic)
        )
    }

    // A word may stand on a wire of this sort: a bool is 0 or 1.
    pub fn holds(self, word: u32) -> bool
        ensures { result ≡ fits_sort (meant_sort self) word }
    {
        match self {
            Sort::Bit => word <= 1,
            _ => true,
        }
    }
}
