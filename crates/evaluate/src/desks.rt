// Figure 13 on two desks: each gate joins its wires' shares and shares the result afresh.
ghost use Rattle.std.specs.Prelude.{◌≡◌, ◌<◌, length, get_or};
ghost use Rattle.rules.specs.Plain.{value_of};
ghost use Rattle.circuit.specs.Sorts.{meant_sort};
ghost use Rattle.circuit.specs.Gates.{meant};

use crate::inputs::Inputs;
use crate::memories::Memories;
use circuit::gates::{Gate, Wire, gate_at, gate_count};
use circuit::sorts::Sort;

// A run over lent memories, by what it reads: a circuit, its wires' sorts, both desks' inputs and a tape.
// (The memories stand apart: contracts then speak of `self.now`, which stays, while they change.)
#[derive(Clone, Copy, Debug)]
pub struct Run<'a> {
    pub circuit: &'a [u8],
    pub sorts: &'a [Sort],
    pub inputs: Inputs<'a>,
    pub tape: &'a [u8],
}

impl Run<'_> {
    ghost use Rattle.evaluate.specs.Held.{SameMemories, contents, sort_in, joined_in, given_in, WireIn, WiresIn, Fresh, Ready, Before, Turned, Done};

    // The sort of a wire.
    fn sort(&self, wire: Wire) -> Sort
        requires { wire.0 < length self.now.sorts.now }
        ensures { meant_sort result ≡ sort_in self.now.sorts.now wire.0 }
    {
        self.sorts[wire.0 as usize]
    }

    // The value of a wire, joined of its two shares.
    fn joined(&self, memories: &Memories, wire: Wire) -> u32
        requires { WireIn self.now.sorts.now (contents memories.now) wire.0 }
        ensures { result ≡ joined_in self.now.sorts.now (contents memories.now) wire.0 }
    {
        memories.joined(self.sort(wire), wire)
    }

    // What a gate gives.
    #[tactic(auto, unfolding(rules::specs::Plain::value_of, rules::specs::Sorts::arm))]
    fn value(&self, memories: &Memories, gate: Gate) -> u32
        requires { WiresIn self.now.sorts.now (contents memories.now) gate }
        ensures { result ≡ value_of (given_in self.now) (joined_in self.now.sorts.now (contents memories.now)) (meant gate) }
    {
        match gate {
            Gate::Both {
                op,
                first,
                second,
                ..
            } => {
                let a = self.joined(memories, first);
                let b = self.joined(memories, second);
                op.applied(a, b)
            }
            Gate::Mux {
                guard,
                first,
                second,
                ..
            } => {
                // A guard of 0 picks the second arm.
                let g = self.joined(memories, guard);
                let a = self.joined(memories, first);
                let b = self.joined(memories, second);
                if g == 0 { b } else { a }
            }
            Gate::Constant { value, .. } => value.0,
            Gate::Convert { wire, .. } | Gate::Out { wire } => self.joined(memories, wire),
            Gate::Input { read, .. } => self.inputs.word(read),
        }
    }

    // Gate i is run.
    fn turn(&self, memories: &mut Memories, i: usize)
        requires { Before self.now (contents memories.old) i }
        ensures same { SameMemories memories.old memories.new }
        ensures turned { Turned self.now i (contents memories.old) (contents memories.new) }
    {
        let gate = gate_at(self.circuit, i).unwrap();
        let v = self.value(memories, gate);
        if gate.makes_wire() {
            let new = memories.so_far.wires;
            memories.deal(self.sorts[new], v, words::get(self.tape, new));
        } else {
            memories.put_out(v);
        }
    }

    // All gates are run, over memories that hold nothing yet.
    pub fn all_gates(&self, memories: &mut Memories)
        requires ready { Ready self.now (contents memories.old) }
        requires fresh { Fresh (contents memories.old) }
        ensures same { SameMemories memories.old memories.new }
        ensures done { Done self.now (contents memories.old) (contents memories.new) }
    {
        for i in 0..gate_count(self.circuit) {
            self.turn(memories, i);
        }
    }
}
