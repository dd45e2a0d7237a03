// Names, labels, indexes (document 01): checks 5 to 8; and all eight checks of a table, in their order.
#![tactic(auto)]

ghost use Rattle.std.specs.Prelude.{◌≡◌};
ghost use Rattle.rules.specs.Answers.{checked};
ghost use Rattle.rows.specs.Passed.{Passes};
ghost use Rattle.names.specs.Promise.{verdict_of, Judged};

use crate::counts::check_indexes;
use crate::labels::{check_public, label};
use crate::named::Named;
use crate::notes::Notes;
use crate::scope::check_names;
use crate::types::check_types;
use table::checks::{check_shapes, fits};
use table::depths::check_depths;
use table::row::{MAX_ROWS, Row};
use table::uses::check_uses;

pub mod counts;
pub mod labels;
pub mod named;
pub mod naming;
pub mod notes;
pub mod scope;
pub mod search;
pub mod types;

// Why a table is refused; the row is the lowest that fails the check.
#[derive(Clone, Copy, Debug, PartialEq, Eq)]
pub enum Refusal {
    // Bytes that are no whole words, no words, not four to a row, over 4,096.
    Length,
    // Not the shape of a kind, or the last row no statement.
    Shape { row: Row },
    // Not the child of exactly one place.
    Place { row: Row },
    // Deeper than 64.
    Depth { row: Row },
    // A name that is not in scope, is in scope already, or is a loop's and stored to.
    Name { row: Row },
    // A wrong type, an array used whole, an input read at two types.
    Typing { row: Row },
    // A secret index, or a secret guard of an if.
    Secret { row: Row },
    // An index not shown below the length.
    Index { row: Row },
}

// Checks 5 to 8, of a table that passes the first four. The secret rows are marked.
fn judge_names(table: &[u8], secret: &mut Notes<bool>) -> Result<(), Refusal>
    requires { Passes 4 table.now }
    ensures { Judged table.now secret.new result }
{
    let mut binders = [None; MAX_ROWS];
    check_names(table, &mut binders).map_err(|row| Refusal::Name { row })?;
    let named = Named {
        table,
        binders: &binders,
    };
    check_types(&named).map_err(|row| Refusal::Typing { row })?;
    label(&named, secret);
    check_public(table, secret).map_err(|row| Refusal::Secret { row })?;
    check_indexes(&named).map_err(|row| Refusal::Index { row })
}

// Checks 1 to 8 of any bytes, and the secret rows of a table that is accepted.
#[tactic(auto, using(crate::proofs::JudgeLaws::fit, crate::proofs::JudgeLaws::none_refused))]
pub fn judge(table: &[u8], secret: &mut Notes<bool>) -> Result<(), Refusal>
    ensures { Judged table.now secret.new result }
{
    if !fits(table) {
        return Err(Refusal::Length);
    }
    check_shapes(table).map_err(|row| Refusal::Shape { row })?;
    check_uses(table).map_err(|row| Refusal::Place { row })?;
    check_depths(table).map_err(|row| Refusal::Depth { row })?;
    judge_names(table, secret)
}

// Checks 1 to 8 of any bytes.
pub fn check(table: &[u8]) -> Result<(), Refusal>
    ensures { verdict_of result ≡ checked table.now }
{
    let mut secret = [false; MAX_ROWS];
    judge(table, &mut secret)
}
