// The rows of a table, four words each: kind, a, b, c.
ghost use Rattle.std.specs.Prelude.{◌≡◌, ◌<◌};
ghost use Rattle.words.specs.Words.{words};
ghost use Rattle.rules.specs.Rows.{word};
ghost use Rattle.rules.specs.Answers.{rows_of};
ghost use Rattle.rows.specs.Passed.{In, Passes};

// The most rows of a table that passes check 1. Fixed memory, no heap: what a check notes of each row lies in an array of this many.
pub const MAX_ROWS: usize = 1024;

// The number of a row. (A tuple struct: document 01, "The forms we use".)
#[derive(Clone, Copy, Debug, Default, PartialEq, Eq, PartialOrd, Ord)]
pub struct Row(pub u32);

// How many rows a table has that passes check 1.
pub fn row_count(table: &[u8]) -> u32
    requires { Passes 1 table.now }
    ensures { result ≡ rows_of table.now }
{
    (table.len() / 16) as u32
}

// Word k of a row: its kind, a, b or c. That the row lies in the table stays a clause: a row's number comes out of the table's own words
// or a loop, so a value that says so would be built, with the same proof, at each read, and hold the table once more.
#[tactic(auto, unfolding(rules::specs::Rows::word))]
pub fn word_at(table: &[u8], row: Row, k: usize) -> u32
    requires { In table.now row.0 × (k < 4) }
    ensures { result ≡ word (words table.now) row.0 k }
{
    words::get(table, 4 * (row.0 as usize) + k)
}
