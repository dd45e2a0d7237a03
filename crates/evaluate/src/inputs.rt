// The inputs that a circuit reads, and checks 22 and 23 of them.
ghost use Rattle.std.specs.Prelude.{◌≡◌, ◌<◌, Bool, ℕ, not, ltb, length, slice_get};
ghost use Rattle.words.specs.Words.{words};
ghost use Rattle.rules.specs.Gates.{gate_at, gate_count, entry_test};
ghost use Rattle.rules.specs.Plain.{of_desk, inputs};
ghost use Rattle.rules.specs.Sorts as rules;
ghost use Rattle.evaluate.specs.InputChecks.{Tests, Found};

use circuit::gates::{Gate, Read, gate_at, gate_count};

// Both desks' inputs.
#[derive(Clone, Copy, Debug)]
pub struct Inputs<'a> {
    pub one: &'a [u8],
    pub two: &'a [u8],
}

impl Inputs<'_> {
    ghost use Rattle.evaluate.specs.InputChecks.{desk_words};

    // The bytes of a desk's inputs. (A desk is a number, and any but 1 is read as desk 2: `word` promises the rules' `inputs`,
    // of any desk.)
    fn of_desk(&self, desk: u32) -> &[u8]
        ensures { result.now ≡ of_desk self.now.one.now self.now.two.now desk }
    {
        if desk == 1 { self.one } else { self.two }
    }

    // The input that is read, if it is there.
    fn get(&self, read: Read) -> Option<u32>
        ensures { result ≡ slice_get (desk_words self.now read.desk) read.number }
    {
        let bytes = self.of_desk(read.desk);
        let k = read.number as usize;
        if k < bytes.len() / 4 {
            Some(words::get(bytes, k))
        } else {
            None
        }
    }

    // The input that is read is there.
    pub fn has(&self, read: Read) -> bool
        ensures { result ≡ ltb read.number (length (desk_words self.now read.desk)) }
    {
        self.get(read).is_some()
    }

    // The input that is read; past the desk's last, 0.
    pub fn word(&self, read: Read) -> u32
        ensures { result ≡ inputs (words self.now.one.now) (words self.now.two.now) read.desk read.number }
    {
        self.get(read).unwrap_or(0)
    }
}

// Gate i reads an input that does not pass.
fn fails<F: Fn(Read) -> bool>(circuit: &[u8], i: usize, passes: &F) -> bool
    requires within { i < gate_count (words circuit.now) }
    requires callable { F.IsAlwaysCallable passes.now }
    ensures { (ok : ℕ → ℕ → rules.Sort → Bool) → Tests (F.post passes.now) ok
        → result ≡ not (entry_test ok (gate_at (words circuit.now) i)) }
{
    let read = gate_at(circuit, i).and_then(Gate::reads);
    read.is_some_and(|read| !passes(read))
}

// The lowest gate that reads an input that does not pass.
pub fn lowest_failing<F: Fn(Read) -> bool>(circuit: &[u8], passes: F) -> Option<usize>
    requires { F.IsAlwaysCallable passes }
    ensures { (ok : ℕ → ℕ → rules.Sort → Bool) → Tests (F.post passes) ok → Found ok (words circuit.now) result }
{
    (0..gate_count(circuit)).find(
        |&i|
            requires within { i < gate_count (words circuit.now) }
            requires callable { F.IsAlwaysCallable passes }
        { fails(circuit, i, &passes) },
    )
}
