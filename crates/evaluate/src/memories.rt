// The three lent memories: a share of each wire for either desk, and the outputs.
ghost use Rattle.std.specs.Prelude.{◌≡◌, ◌&&◌, ◌+◌, ◌*◌, ◌/◌, ◌≤◌, leb, length, get_or};
ghost use Rattle.words.specs.Words.{words};
ghost use Rattle.rules.specs.Shares.{join};
ghost use Rattle.circuit.specs.Sorts.{meant_sort};

use circuit::gates::Wire;
use circuit::sorts::Sort;

// How many wires and outputs. (Places in memory, so usize; `Accepted` has the answer's words.)
#[derive(Clone, Copy, Debug, Default, PartialEq, Eq)]
pub struct Counts {
    pub wires: usize,
    pub outputs: usize,
}

// Three slices side by side, as the C interface lends them, and how many wires and outputs they hold so far.
#[derive(Debug, Drop)]
pub struct Memories<'a> {
    pub one: &'a mut [u8],
    pub two: &'a mut [u8],
    pub outs: &'a mut [u8],
    pub so_far: Counts,
}

// `SameMemories` is a fact of before and after, so no invariant of the type.
impl Memories<'_> {
    ghost use Rattle.evaluate.specs.Held.{SameMemories, HasPlaces, contents, with_shares, with_output};

    // So many wires and outputs have their places.
    pub fn have_room(&self, all: Counts) -> bool
        ensures { result ≡ (leb all.wires (length self.now.one.now / 4)
            && (leb all.wires (length self.now.two.now / 4) && leb all.outputs (length self.now.outs.now / 4))) }
    {
        all.wires <= self.one.len() / 4
            && all.wires <= self.two.len() / 4
            && all.outputs <= self.outs.len() / 4
    }

    // The value of a wire of this sort, joined of its two shares.
    pub fn joined(&self, sort: Sort, wire: Wire) -> u32
        requires { HasPlaces (contents self.now) wire.0 }
        ensures { result ≡ join (meant_sort sort) (get_or (words self.now.one.now) wire.0 0) (get_or (words self.now.two.now) wire.0 0) }
    {
        let k = wire.0 as usize;
        share::join(sort, words::get(self.one, k), words::get(self.two, k))
    }

    // The next wire, of value v, is shared with its tape word t.
    pub fn deal(&mut self, sort: Sort, v: u32, t: u32)
        requires { HasPlaces (contents self.old) self.old.so_far.wires }
        ensures same { SameMemories self.old self.new }
        ensures dealt { contents self.new ≡ with_shares (contents self.old) (meant_sort sort) v t }
    {
        let k = self.so_far.wires;
        words::put(self.one, k, share::share_one(sort, t));
        words::put(self.two, k, share::share_two(sort, v, t));
        self.so_far.wires += 1;
    }

    // The next output is v.
    pub fn put_out(&mut self, v: u32)
        requires { 4 * self.old.so_far.outputs + 4 ≤ length self.old.outs.now }
        ensures same { SameMemories self.old self.new }
        ensures put { contents self.new ≡ with_output (contents self.old) v }
    {
        words::put(self.outs, self.so_far.outputs, v);
        self.so_far.outputs += 1;
    }
}
