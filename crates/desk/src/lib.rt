// The desk's C interface, thin: each entry turns an operation's answer into the paper's numbers (include/desk.h).
#![tactic(auto)]

ghost use Rattle.std.specs.Prelude.{◌≡◌, Err};
ghost use Rattle.evaluate.specs.Promise.{answered, lent_with, Promise};
ghost use Rattle.desk.specs.Numbers.{as_numbers};

use evaluate::{Accepted, Refusal};

// Number, place, and how many wires and outputs; zero counts where refused. (Numbers, as C reads them.)
#[repr(C)]
#[derive(Clone, Copy, Debug, PartialEq, Eq)]
pub struct Evaluated {
    pub number: u32,
    pub place: u32,
    pub wires: u32,
    pub outputs: u32,
}

impl From<Refusal> for Evaluated {
    ghost from_gives = { λ why numbers. as_numbers numbers ≡ answered (Err why) };

    // The paper's number and place of each refusal.
    fn from(why: Refusal) -> Evaluated {
        let (number, place) = match why {
            Refusal::CircuitLength => (20, 0),
            Refusal::GateBreaksRules { gate } => (21, gate),
            Refusal::InputMissing { gate } => (22, gate),
            Refusal::InputNoBool { gate } => (23, gate),
            Refusal::TapeShort => (24, 0),
            Refusal::MemoryShort => (25, 0),
        };
        Evaluated {
            number,
            place,
            wires: 0,
            outputs: 0,
        }
    }
}

impl From<Result<Accepted, Refusal>> for Evaluated {
    ghost from_gives = { λ answer numbers. as_numbers numbers ≡ answered answer };

    fn from(answer: Result<Accepted, Refusal>) -> Evaluated {
        match answer {
            Ok(Accepted { wires, outputs }) => Evaluated {
                number: 0,
                place: 0,
                wires,
                outputs,
            },
            Err(why) => why.into(),
        }
    }
}

// Evaluate a circuit on two desks' inputs and a tape. (What is lent comes one by one, as C lends it.)
#[unsafe(no_mangle)]
pub extern "C" fn desk_evaluate(
    circuit: &[u8],
    inputs1: &[u8],
    inputs2: &[u8],
    tape: &[u8],
    shares1: &mut [u8],
    shares2: &mut [u8],
    outputs: &mut [u8],
) -> Evaluated
    ensures { Promise
        (lent_with circuit.now inputs1.now inputs2.now tape.now
        shares1.old shares2.old outputs.old)
        (as_numbers result) shares1.new shares2.new outputs.new }
{
    evaluate::evaluate(circuit, inputs1, inputs2, tape, shares1, shares2, outputs).into()
}
