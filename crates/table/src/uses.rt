// Check 3: each row but the last is the child of exactly one place. A counter for each row is kept while the check runs.
ghost use Rattle.std.specs.Prelude.{◌≡◌, ◌+◌, ◌<◌};
ghost use Rattle.rules.specs.Answers.{rows_of, failing3};
ghost use Rattle.rows.specs.Passed.{Passes};
ghost use Rattle.table.specs.Checks.{Finds};

use crate::checks::lowest_failing;
use crate::row::{MAX_ROWS, Row, row_count};
use crate::shapes::row_words;

// A table with a counter for each of its rows. Each step says that it keeps the table: lent apart, the two would travel together. How far the
// counting is (`Tallied`) stays a clause: each step changes it.
#[derive(Drop)]
struct Tally<'a> {
    table: &'a [u8],
    uses: [u32; MAX_ROWS],
}

impl<'a> Tally<'a> {
    ghost use Rattle.table.specs.Uses.{CanCount, counted, Tallied};

    // One more place for a child.
    fn count_child(&mut self, child: Option<Row>)
        requires { CanCount self.old.uses child }
        ensures { (self.new.table ≡ self.old.table) × (self.new.uses ≡ counted self.old.uses child) }
    {
        if let Some(child) = child {
            self.uses[child.0 as usize] += 1;
        }
    }

    // The places of a row's children are counted, after those of the rows below it.
    fn count_children(&mut self, row: Row)
        requires { Tallied self.old row.0 × (row.0 < rows_of self.old.table.now) }
        ensures { (self.new.table ≡ self.old.table) × Tallied self.new (row.0 + 1) }
    {
        for child in row_words(self.table, row).children() {
            self.count_child(child);
        }
    }

    // The places of all rows are counted.
    fn count_all(&mut self)
        requires { Tallied self.old 0 }
        ensures { (self.new.table ≡ self.old.table) × Tallied self.new (rows_of self.old.table.now) }
    {
        for i in 0..row_count(self.table) {
            self.count_children(Row(i));
        }
    }

    // The lowest row but the last that has not exactly one place.
    fn lowest_misused(&self) -> Result<(), Row>
        requires { Tallied self.now (rows_of self.now.table.now) }
        ensures { Finds (failing3 self.now.table.now) result }
    {
        let n = row_count(self.table);
        lowest_failing(n, |row| row.0 + 1 == n || self.uses[row.0 as usize] == 1)
    }
}

// Check 3, of a table that passes check 2.
pub fn check_uses(table: &[u8]) -> Result<(), Row>
    requires { Passes 2 table.now }
    ensures { Finds (failing3 table.now) result }
{
    let mut tally = Tally {
        table,
        uses: [0; MAX_ROWS],
    };
    tally.count_all();
    tally.lowest_misused()
}
