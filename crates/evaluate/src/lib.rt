// Evaluate a circuit on two desks' inputs and a tape (document 01, "Shares", checks 20 to 25; Figure 13).
#![tactic(auto)]

mod desks;
mod inputs;
mod memories;

ghost use Rattle.std.specs.Prelude.{◌≡◌, T, OnOk, IfErr};
ghost use Rattle.rules.specs.Gates.{circuit_fits};
ghost use Rattle.rules.specs.Answers.{FitInputs};
ghost use Rattle.evaluate.specs.declared.Refusal.TheVariants.{GateBreaksRules};
ghost use Rattle.evaluate.specs.InputChecks.{InputsRefused};
ghost use Rattle.evaluate.specs.Held.{SameMemories, Fresh, Allowed, contents, lent_to};
ghost use Rattle.evaluate.specs.Promise.{answered, lent_with, Promise};

use crate::desks::Run;
use crate::inputs::{Inputs, lowest_failing};
use crate::memories::{Counts, Memories};
use arrayvec::ArrayVec;
use circuit::checks::{BrokenGate, check_gates, fits};
use circuit::gates::gate_count;

// How many wires and outputs an accepted evaluation wrote.
#[derive(Clone, Copy, Debug, PartialEq, Eq)]
pub struct Accepted {
    pub wires: u32,
    pub outputs: u32,
}

// Why an evaluation is refused, with the lowest failing gate where one fails.
#[derive(Clone, Copy, Debug, PartialEq, Eq)]
pub enum Refusal {
    CircuitLength,
    GateBreaksRules { gate: u32 },
    InputMissing { gate: u32 },
    InputNoBool { gate: u32 },
    TapeShort,
    MemoryShort,
}

impl From<BrokenGate> for Refusal {
    ghost from_gives = { λ broken why. why ≡ GateBreaksRules broken.gate };

    fn from(broken: BrokenGate) -> Refusal {
        Refusal::GateBreaksRules { gate: broken.gate }
    }
}

// Checks 22 and 23, of a circuit that passes check 20.
fn check_inputs(circuit: &[u8], inputs: &Inputs) -> Result<(), Refusal>
    requires { T (circuit_fits circuit.now) }
    ensures ok { OnOk result (FitInputs circuit.now inputs.now.one.now inputs.now.two.now) }
    ensures err { IfErr result (InputsRefused circuit.now inputs.now.one.now inputs.now.two.now) }
{
    if let Some(gate) = lowest_failing(circuit, |read| inputs.has(read)) {
        return Err(Refusal::InputMissing { gate: gate as u32 });
    }
    if let Some(gate) = lowest_failing(circuit, |read| read.sort.holds(inputs.word(read))) {
        return Err(Refusal::InputNoBool { gate: gate as u32 });
    }
    Ok(())
}

// Checks 24 and 25, of a run that the checks before allow; then all gates are run.
fn run_with_room(run: &Run, memories: &mut Memories) -> Result<Accepted, Refusal>
    requires allowed { Allowed run.now }
    requires fresh { Fresh (contents memories.old) }
    ensures same { SameMemories memories.old memories.new }
    ensures promise { Promise (lent_to run.now (contents memories.old)) (answered result)
        memories.new.one.now memories.new.two.now memories.new.outs.now }
{
    let wires = run.sorts.len();
    // Each gate makes a wire or is an out.
    let outputs = gate_count(run.circuit) - wires;
    if run.tape.len() / 4 < wires {
        return Err(Refusal::TapeShort);
    }
    if !memories.have_room(Counts { wires, outputs }) {
        return Err(Refusal::MemoryShort);
    }
    run.all_gates(memories);
    Ok(Accepted {
        wires: wires as u32,
        outputs: outputs as u32,
    })
}

// The operation: any bytes get an answer, and a refusal writes nothing.
// (What is lent comes one by one, as `desk_evaluate` gets it from C; docs/PROMISES.md names these arguments.)
pub fn evaluate(
    circuit: &[u8],
    inputs1: &[u8],
    inputs2: &[u8],
    tape: &[u8],
    shares1: &mut [u8],
    shares2: &mut [u8],
    outputs: &mut [u8],
) -> Result<Accepted, Refusal>
    ensures { Promise
        (lent_with circuit.now inputs1.now inputs2.now tape.now
        shares1.old shares2.old outputs.old)
        (answered result) shares1.new shares2.new outputs.new }
{
    if !fits(circuit) {
        return Err(Refusal::CircuitLength);
    }
    let mut sorts = ArrayVec::new();
    check_gates(circuit, &mut sorts)?;
    let inputs = Inputs {
        one: inputs1,
        two: inputs2,
    };
    check_inputs(circuit, &inputs)?;
    let run = Run {
        circuit,
        inputs,
        tape,
        sorts: sorts.as_slice(),
    };
    let mut memories = Memories {
        one: shares1,
        two: shares2,
        outs: outputs,
        so_far: Counts::default(),
    };
    run_with_room(&run, &mut memories)
}
