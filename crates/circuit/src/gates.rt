// Gates, read from their five words.
ghost use Rattle.std.specs.Prelude.{◌≡◌, ◌+◌, ◌*◌, ◌≤◌, length, slice_index_or};
ghost use Rattle.words.specs.Words.{words};
ghost use Rattle.rules.specs.Sorts.{side_at, result_at, applied};
ghost use Rattle.rules.specs.Gates.{no_gate, gate_kinds, gate_of, gate_at, gate_count};
ghost use Rattle.circuit.specs.Gates.{meant_gate};

use crate::sorts::Sort;

// The number of a wire. (A tuple struct, as a public value and a row: document 01, "The forms we use".)
#[derive(Clone, Copy, Debug, PartialEq, Eq)]
pub struct Wire(pub u32);

// A public value.
#[derive(Clone, Copy, Debug, PartialEq, Eq)]
pub struct Value(pub u32);

// The two-sided operators.
#[derive(Clone, Copy, Debug, PartialEq, Eq)]
pub enum Op {
    Add,
    Greater,
}

// An input that is read at a sort. (Its desk stays a number: a gate has whatever number stands there, and check 21 refuses
// all but 1 and 2.)
#[derive(Clone, Copy, Debug, PartialEq, Eq)]
pub struct Read {
    pub desk: u32,
    pub number: u32,
    pub sort: Sort,
}

#[derive(Clone, Copy, Debug, PartialEq, Eq)]
pub enum Gate {
    Both {
        op: Op,
        first: Wire,
        second: Wire,
        new: Wire,
    },
    Mux {
        guard: Wire,
        first: Wire,
        second: Wire,
        new: Wire,
    },
    Constant {
        value: Value,
        sort: Sort,
        new: Wire,
    },
    Convert {
        wire: Wire,
        sort: Sort,
        new: Wire,
    },
    Input {
        read: Read,
        new: Wire,
    },
    Out {
        wire: Wire,
    },
}

impl Op {
    ghost use Rattle.circuit.specs.Sorts.{as_sort};
    ghost use Rattle.circuit.specs.Gates.{meant_op};

    // The sort of its two sides.
    pub fn side(self) -> Sort
        ensures { result ≡ as_sort (side_at (meant_op self)) }
    {
        match self {
            Op::Add => Sort::ARITHMETIC,
            Op::Greater => Sort::BOOLEAN,
        }
    }

    // The sort of its result.
    pub fn result(self) -> Sort
        ensures { result ≡ as_sort (result_at (meant_op self)) }
    {
        match self {
            Op::Add => Sort::ARITHMETIC,
            Op::Greater => Sort::BIT,
        }
    }

    // What it gives of two values.
    #[tactic(auto, unfolding(rules::specs::Sorts::applied))]
    pub fn applied(self, a: u32, b: u32) -> u32
        ensures { result ≡ applied (meant_op self) a b }
    {
        match self {
            Op::Add => a.wrapping_add(b),
            Op::Greater => u32::from(b < a),
        }
    }
}

impl Gate {
    ghost use Rattle.circuit.specs.Gates.{makes_wire, read_by};

    // It makes a wire; an out makes none.
    pub fn makes_wire(self) -> bool
        ensures { result ≡ makes_wire self }
    {
        !matches!(self, Gate::Out { .. })
    }

    // The input that it reads.
    pub fn reads(self) -> Option<Read>
        ensures { result ≡ read_by self }
    {
        match self {
            Gate::Input { read, .. } => Some(read),
            _ => None,
        }
    }
}

// The gate of five words. The words that a kind does not list are 0, and its sort is a sort.
#[tactic(auto, unfolding(rules::specs::Gates::gate_at, rules::specs::Gates::gate_word, rules::specs::Gates::gate_of, rules::specs::Gates::gate_kinds))]
fn gate_of(words: [u32; 5]) -> Option<Gate>
    ensures { meant_gate result ≡ gate_at words 0 }
{
    let gate = match words {
        [1, first, second, new, 0] => Gate::Both {
            op: Op::Add,
            first: Wire(first),
            second: Wire(second),
            new: Wire(new),
        },
        [2, guard, first, second, new] => Gate::Mux {
            guard: Wire(guard),
            first: Wire(first),
            second: Wire(second),
            new: Wire(new),
        },
        [3, first, second, new, 0] => Gate::Both {
            op: Op::Greater,
            first: Wire(first),
            second: Wire(second),
            new: Wire(new),
        },
        [4, value, sort, new, 0] => Gate::Constant {
            value: Value(value),
            sort: Sort::try_from(sort).ok()?,
            new: Wire(new),
        },
        [5, wire, sort, new, 0] => Gate::Convert {
            wire: Wire(wire),
            sort: Sort::try_from(sort).ok()?,
            new: Wire(new),
        },
        [6, desk, number, sort, new] => Gate::Input {
            read: Read {
                desk,
                number,
                sort: Sort::try_from(sort).ok()?,
            },
            new: Wire(new),
        },
        [7, wire, 0, 0, 0] => Gate::Out { wire: Wire(wire) },
        _ => return None,
    };
    Some(gate)
}

// How many gates a circuit has.
pub fn gate_count(circuit: &[u8]) -> usize
    ensures { result ≡ gate_count (words circuit.now) }
{
    circuit.len() / 20
}

// Gate i of a circuit.
pub fn gate_at(circuit: &[u8], i: usize) -> Option<Gate>
    requires { 20 * i + 20 ≤ length circuit.now }
    ensures { meant_gate result ≡ gate_at (words circuit.now) i }
{
    let k = 5 * i;
    gate_of([
        words::get(circuit, k),
        words::get(circuit, k + 1),
        words::get(circuit, k + 2),
        words::get(circuit, k + 3),
        words::get(circuit, k + 4),
    ])
}
