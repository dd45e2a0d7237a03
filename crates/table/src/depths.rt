// Check 4: no row is deeper than 64. The last row is at 1, and a child one more than its parent.
ghost use Rattle.std.specs.Prelude.{◌≡◌, ◌+◌, ◌<◌};
ghost use Rattle.rules.specs.Answers.{rows_of, failing4};
ghost use Rattle.rows.specs.Passed.{Passes};
ghost use Rattle.table.specs.Checks.{Finds};

use crate::checks::lowest_failing;
use crate::row::{MAX_ROWS, Row, row_count};
use crate::shapes::row_words;

// The depth of the deepest row that passes.
const MAX_DEPTH: u32 = 64;

// A table with a depth for each of its rows. Each step says that it keeps the table: lent apart, the two would travel together. How far the
// sinking is (`Sinking`) stays a clause: each step changes it.
#[derive(Drop)]
struct Depths<'a> {
    table: &'a [u8],
    depths: [u32; MAX_ROWS],
}

impl<'a> Depths<'a> {
    ghost use Rattle.table.specs.Depths.{CanSink, sunk, Sinking};

    // A child is put at a depth.
    fn sink_child(&mut self, child: Option<Row>, depth: u32)
        requires { CanSink child }
        ensures { (self.new.table ≡ self.old.table) × (self.new.depths ≡ sunk self.old.depths child depth) }
    {
        if let Some(child) = child {
            self.depths[child.0 as usize] = depth;
        }
    }

    // The children of a row are put one deeper than the row.
    fn sink_children(&mut self, row: Row)
        requires { Sinking self.old (row.0 + 1) × (row.0 < rows_of self.old.table.now) }
        ensures { (self.new.table ≡ self.old.table) × Sinking self.new row.0 }
    {
        let depth = self.depths[row.0 as usize] + 1;
        for child in row_words(self.table, row).children() {
            self.sink_child(child, depth);
        }
    }

    // From the last row down, each row after the one that holds it.
    fn sink_all(&mut self)
        requires { Sinking self.old (rows_of self.old.table.now) }
        ensures { (self.new.table ≡ self.old.table) × Sinking self.new 0 }
    {
        for i in (0..row_count(self.table)).rev() {
            self.sink_children(Row(i));
        }
    }

    // The lowest row that is deeper than 64.
    fn lowest_deep(&self) -> Result<(), Row>
        requires { Sinking self.now 0 }
        ensures { Finds (failing4 self.now.table.now) result }
    {
        lowest_failing(
            row_count(self.table),
            |row| self.depths[row.0 as usize] <= MAX_DEPTH,
        )
    }
}

// Check 4, of a table that passes check 3.
pub fn check_depths(table: &[u8]) -> Result<(), Row>
    requires { Passes 3 table.now }
    ensures { Finds (failing4 table.now) result }
{
    let mut noted = Depths {
        table,
        depths: [0; MAX_ROWS],
    };
    noted.depths[row_count(table) as usize - 1] = 1;
    noted.sink_all();
    noted.lowest_deep()
}
