// What a check finds, which is the lowest row that fails it; check 1, a table's length; and check 2, the shape of each row.
ghost use Rattle.std.specs.Prelude.{◌≡◌, ◌<◌};
ghost use Rattle.words.specs.Words.{words};
ghost use Rattle.rules.specs.Rows.{fits as field_fits, table_fits, row_shaped};
ghost use Rattle.rules.specs.Answers.{failing2};
ghost use Rattle.rows.specs.Passed.{In, Passes};
ghost use Rattle.table.specs.Shapes.{meant_field};
ghost use Rattle.table.specs.Checks.{Finds, FindsLowest, sort_below};
ghost use Rattle.table.specs.declared.row.Row as code;

use crate::row::{MAX_ROWS, Row, row_count, word_at};
use crate::shapes::{Field, Sort, row_words, shape_of};

// `Passes k` stays a clause: no three functions ask for the same k. (Of the checks after 5, which all ask for 5, names' 6 and 8 and the labels have
// it in `Named`.)

// The lowest of the rows below a number that fails a test, as an error. (Crate evaluate has the like of gates, by the library's `find`; its
// test may be called of any gate, this one's of the rows below the number alone.)
pub fn lowest_failing<F: Fn(Row) -> bool>(rows: u32, passes: F) -> Result<(), Row>
    requires { (r : code.Row) → r.0 < rows → F.pre passes r }
    ensures { FindsLowest (F.post passes) rows result }
{
    for i in 0..rows {
        if !passes(Row(i)) {
            return Err(Row(i));
        }
    }
    Ok(())
}

// Check 1: whole words, some, four to a row, at most 4,096.
pub fn fits(table: &[u8]) -> bool
    ensures { result ≡ table_fits table.now }
{
    let n = table.len() / 4;
    table.len() % 4 == 0 && 0 < n && n % 4 == 0 && n <= 4 * MAX_ROWS
}

// What a child of a row is: nothing where it is not lower. (That the row lies in the table: see `word_at`.)
#[tactic(auto, unfolding(rules::specs::Rows::kind_at))]
fn child_sort(table: &[u8], row: Row, child: Row) -> Option<Sort>
    requires { In table.now row.0 }
    ensures { result ≡ sort_below (words table.now) row.0 child.0 }
{
    if child < row {
        shape_of(word_at(table, child, 0)).sort
    } else {
        None
    }
}

// A word of a row fits its field.
fn fits_field(table: &[u8], row: Row, word: u32, field: Field) -> bool
    requires { In table.now row.0 }
    ensures { result ≡ field_fits (words table.now) row.0 word (meant_field field) }
{
    match field {
        Field::Within { low, high } => (low..=high).contains(&word),
        Field::Child(sort) => child_sort(table, row, Row(word)) == Some(sort),
    }
}

// Check 2 of a row of n.
fn row_shaped(table: &[u8], n: u32, row: Row) -> bool
    requires { In table.now row.0 × (row.0 < n) }
    ensures { result ≡ row_shaped (words table.now) n row.0 }
{
    let read = row_words(table, row);
    for (word, field) in read.fields() {
        if !fits_field(table, row, word, field) {
            return false;
        }
    }
    read.shape.sort == Some(Sort::Stmt) || row.0 + 1 != n
}

// Check 2, of a table that passes check 1.
pub fn check_shapes(table: &[u8]) -> Result<(), Row>
    requires { Passes 1 table.now }
    ensures { Finds (failing2 table.now) result }
{
    let n = row_count(table);
    lowest_failing(n, |row| row_shaped(table, n, row))
}
