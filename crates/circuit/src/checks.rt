// Checks 20 and 21: a circuit's length, and the rules that each gate keeps after those before it.
ghost use Rattle.std.specs.Prelude.{◌≡◌, ℕ, ◌+◌, ◌*◌, ◌&&◌, ◌∷◌, ◌<◌, ◌≤◌, T, List, Option, None, Some, length, slice_get, slice_set, IsSome};
ghost use Rattle.arrayvec.specs.ArrayVec.{array_vec_len};
ghost use Rattle.words.specs.Words.{words};
ghost use Rattle.rules.specs.Gates.{gate_at, is_wire, is_next, keeps_rules, circuit_fits};
ghost use Rattle.rules.specs.Gates as rules;
ghost use Rattle.circuit.specs.Sorts.{meant_sort};
ghost use Rattle.circuit.specs.Gates.{meant, meant_gate};
ghost use Rattle.circuit.specs.Noted.{WiresNoted, InputsNoted, InputIn, arms_alike, converts_to, may_read, kept, sort_made, GatesChecked};

use crate::gates::{Gate, Read, Wire, gate_at, gate_count};
use crate::sorts::Sort;
use arrayvec::ArrayVec;

// The sorts of a circuit's wires, in order: each gate makes one wire at most.
pub type WireSorts = ArrayVec<Sort, 3000>;

// Check 20: whole words, five to a gate, at most 15,000.
pub fn fits(circuit: &[u8]) -> bool
    ensures { result ≡ circuit_fits circuit.now }
{
    let n = circuit.len() / 4;
    circuit.len() % 4 == 0 && n % 5 == 0 && n <= 15000
}

// Functions and no methods: a struct round the kit's type would only stand before each use of it, so be no plainer. That sorts and
// inputs are those of some gates (`WiresNoted`, `InputsNoted`), and that a gate keeps the rules after them, is no invariant of a type
// either: the gates are others with each call.

// The sort of a wire, of the wires so far.
fn made(sorts: &WireSorts, wire: Wire) -> Option<Sort>
    ensures { result ≡ slice_get sorts.now.items wire.0 }
{
    sorts.get(wire.0 as usize).copied()
}

// A wire was made, with this sort.
#[tactic(auto, unfolding(rules::specs::Gates::is_wire))]
fn is_wire(sorts: &WireSorts, wire: Wire, sort: Sort) -> bool
    ensures { (gs : List rules.Gate) → WiresNoted gs sorts.now → result ≡ is_wire gs wire.0 (meant_sort sort) }
{
    made(sorts, wire) == Some(sort)
}

// Two wires were made, with this sort.
fn are_wires(sorts: &WireSorts, first: Wire, second: Wire, sort: Sort) -> bool
    ensures { (gs : List rules.Gate) → WiresNoted gs sorts.now
        → result ≡ (is_wire gs first.0 (meant_sort sort) && is_wire gs second.0 (meant_sort sort)) }
{
    is_wire(sorts, first, sort) && is_wire(sorts, second, sort)
}

// A new wire has the next number.
#[tactic(auto, unfolding(rules::specs::Gates::is_next))]
fn is_next(sorts: &WireSorts, new: Wire) -> bool
    ensures { (gs : List rules.Gate) → WiresNoted gs sorts.now → result ≡ is_next gs new.0 }
{
    new.0 as usize == sorts.len()
}

// The sorts at which inputs were read: of desk 1 and then of desk 2, each input below 64. That a read lies in the table (`InTable`) stays a
// clause: `Read` holds whatever a gate has (the clause of `gate_at`), and a type for it would be built, with the same proof, at each call.
#[derive(Clone, Copy, Debug)]
pub struct InputSorts {
    pub sorts: [Option<Sort>; 128],
    ghost sized: { length sorts ≡ 128 },
}

impl InputSorts {
    ghost use Rattle.circuit.specs.Slots.{InTable, slot_of, sort_at, other_than};

    // Before any input is read.
    pub fn new() -> InputSorts
        ensures { (desk number : ℕ) → sort_at result.sorts desk number ≡ None }
    {
        InputSorts { sorts: [None; 128] }
    }

    // The place of an input in the table: of desk 1 or 2, its number below 64.
    pub(crate) fn slot(desk: u32, number: u32) -> Option<usize>
        ensures inside { InTable desk number → result ≡ Some (slot_of desk number) }
        ensures only_inside { IsSome result → InTable desk number }
    {
        (matches!(desk, 1 | 2) && number < 64).then(|| (64 * (desk - 1) + number) as usize)
    }

    // The sort at which an input was read.
    fn at(&self, desk: u32, number: u32) -> Option<Sort>
        ensures { InTable desk number → result ≡ sort_at self.now.sorts desk number }
    {
        let k = InputSorts::slot(desk, number)?;
        self.sorts[k]
    }

    // An earlier gate reads the input at another sort.
    pub fn clashes(&self, read: Read) -> bool
        ensures { InTable read.desk read.number
            → result ≡ other_than (sort_at self.now.sorts read.desk read.number) read.sort }
    {
        self.at(read.desk, read.number)
            .is_some_and(|other| other != read.sort)
    }

    // An input that is read is noted with its sort.
    pub fn note(&mut self, read: Read)
        requires { InTable read.desk read.number }
        ensures { self.new.sorts ≡ slice_set self.old.sorts (slot_of read.desk read.number) (Some read.sort) }
    {
        if let Some(k) = InputSorts::slot(read.desk, read.number) {
            self.sorts[k] = Some(read.sort);
        }
    }

    // An input is of desk 1 or 2, its number below 64, arithmetic or a bit, and no earlier gate reads it at another sort.
    fn allows(&self, read: Read) -> bool
        ensures { (gs : List rules.Gate) → InputsNoted gs self.now.sorts
            → result ≡ may_read gs read.desk read.number (meant_sort read.sort) }
    {
        InputSorts::slot(read.desk, read.number).is_some()
            && read.sort != Sort::BOOLEAN
            && !self.clashes(read)
    }

    // Of a gate that keeps the rules, the input that it reads is noted. (Check 6 does the like of a row: one contract speaks of gates, the
    // other of a row's words, so one function for both would be no plainer.)
    #[tactic(auto, unfolding(rules::specs::Gates::keeps_rules, rules::specs::Gates::clashes))]
    fn note_input_of(&mut self, gate: Gate)
        requires { InputIn gate }
        ensures { (gs : List rules.Gate) → InputsNoted gs self.old.sorts → T (keeps_rules gs (meant gate))
            → InputsNoted (meant gate ∷ gs) self.new.sorts }
    {
        if let Some(read) = gate.reads() {
            self.note(read);
        }
    }
}

// The arms of a mux are both boolean or both bits.
fn arms_alike(sorts: &WireSorts, first: Wire, second: Wire) -> bool
    ensures { (gs : List rules.Gate) → WiresNoted gs sorts.now → result ≡ arms_alike gs first.0 second.0 }
{
    are_wires(sorts, first, second, Sort::BOOLEAN) || are_wires(sorts, first, second, Sort::BIT)
}

// A convert gate goes from the sort of its wire.
#[tactic(auto, unfolding(rules::specs::Gates::is_wire))]
fn converts(sorts: &WireSorts, wire: Wire, to: Sort) -> bool
    ensures { (gs : List rules.Gate) → WiresNoted gs sorts.now → result ≡ converts_to gs wire.0 (meant_sort to) }
{
    made(sorts, wire).is_some_and(|from| from.converts_to(to))
}

// A gate keeps its line of the table of gates, after gates that made wires of these sorts and read these inputs.
#[tactic(auto, unfolding(rules::specs::Gates::keeps_rules))]
fn keeps(gate: Gate, sorts: &WireSorts, inputs: &InputSorts) -> bool
    ensures { (gs : List rules.Gate) → WiresNoted gs sorts.now → InputsNoted gs inputs.now.sorts
        → result ≡ keeps_rules gs (meant gate) }
{
    match gate {
        Gate::Both {
            op,
            first,
            second,
            new,
        } => are_wires(sorts, first, second, op.side()) && is_next(sorts, new),
        Gate::Mux {
            guard,
            first,
            second,
            new,
        } => {
            is_wire(sorts, guard, Sort::BIT)
                && arms_alike(sorts, first, second)
                && is_next(sorts, new)
        }
        Gate::Constant { value, sort, new } => sort.holds(value.0) && is_next(sorts, new),
        Gate::Convert { wire, sort, new } => converts(sorts, wire, sort) && is_next(sorts, new),
        Gate::Input { read, new } => inputs.allows(read) && is_next(sorts, new),
        Gate::Out { wire } => made(sorts, wire).is_some(),
    }
}

// Gate i of a circuit, if it keeps the rules after gates that made wires of these sorts and read these inputs.
fn kept_gate(circuit: &[u8], i: usize, sorts: &WireSorts, inputs: &InputSorts) -> Option<Gate>
    requires { 20 * i + 20 ≤ length circuit.now }
    ensures { (gs : List rules.Gate) → WiresNoted gs sorts.now → InputsNoted gs inputs.now.sorts
        → meant_gate result ≡ kept gs (gate_at (words circuit.now) i) }
{
    gate_at(circuit, i).filter(|gate| keeps(*gate, sorts, inputs))
}

// The sort of the wire that a gate makes.
#[tactic(auto, unfolding(rules::specs::Gates::keeps_rules, rules::specs::Gates::is_wire, rules::specs::Gates::sort_made))]
fn sort_made(gate: Gate, sorts: &WireSorts) -> Option<Sort>
    ensures { (gs : List rules.Gate) → WiresNoted gs sorts.now → T (keeps_rules gs (meant gate))
        → result ≡ sort_made gs (meant gate) }
{
    match gate {
        Gate::Both { op, .. } => Some(op.result()),
        Gate::Mux { first, .. } => made(sorts, first),
        Gate::Constant { sort, .. } | Gate::Convert { sort, .. } => Some(sort),
        Gate::Input { read, .. } => Some(read.sort),
        Gate::Out { .. } => None,
    }
}

// Of a gate that keeps the rules, the wire that it makes is noted.
#[tactic(auto, using(crate::proofs::CheckLaws::wire_after, crate::proofs::CheckLaws::no_wire_after))]
fn note_wire(gate: Gate, sorts: &mut WireSorts)
    requires { array_vec_len sorts.old < 3000 }
    ensures { (gs : List rules.Gate) → WiresNoted gs sorts.old → T (keeps_rules gs (meant gate))
        → WiresNoted (meant gate ∷ gs) sorts.new }
{
    if let Some(sort) = sort_made(gate, sorts) {
        sorts.push(sort);
    }
}

// The lowest gate that breaks the rules.
#[derive(Clone, Copy, Debug, PartialEq, Eq)]
pub struct BrokenGate {
    pub gate: u32,
}

// Check 21, of a circuit that passes check 20. The sorts of its wires are noted, in place of what was noted before.
// (Lent, not returned: returned, 3,000 bytes would be copied by memcpy, and include/desk.h promises memset alone.)
pub fn check_gates(circuit: &[u8], sorts: &mut WireSorts) -> Result<(), BrokenGate>
    requires { T (circuit_fits circuit.now) }
    ensures { GatesChecked circuit.now sorts.new result }
{
    sorts.clear();
    let mut inputs = InputSorts::new();
    for i in 0..gate_count(circuit) {
        let gate = kept_gate(circuit, i, sorts, &inputs).ok_or(BrokenGate { gate: i as u32 })?;
        note_wire(gate, sorts);
        inputs.note_input_of(gate);
    }
    Ok(())
}
