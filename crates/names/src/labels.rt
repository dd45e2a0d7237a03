// Labels, and check 7. Each row has one rule, "this row is secret if .."; passes over the rules mark rows until no pass marks one more.
ghost use Rattle.std.specs.Prelude.{◌≡◌, ◌+◌, ◌<◌};
ghost use Rattle.rules.specs.Answers.{rows_of, failing7};
ghost use Rattle.rows.specs.Passed.{Passes};
ghost use Rattle.table.specs.Checks.{Finds};
ghost use Rattle.names.specs.Labels.{asked_by, asked_row, public_by, Labelled, Followed};

use crate::named::Named;
use crate::notes::{Notes, at};
use table::checks::lowest_failing;
use table::meaning::{Meaning, meaning_at};
use table::row::{Row, row_count};

// The rule of a row asks for a mark, by its meaning, the declaration that its name stands for, and the marks so far.
fn asked_by(meaning: Meaning, declaration: Option<Row>, secret: &Notes<bool>) -> bool
    ensures { result ≡ asked_by meaning declaration secret.now }
{
    match meaning {
        Meaning::Name { .. } | Meaning::Element { .. } => {
            declaration.is_some_and(|row| at(secret, row))
        }
        Meaning::Both { first, second, .. } => at(secret, first) || at(secret, second),
        Meaning::Cond {
            guard,
            first,
            second,
        } => at(secret, guard) || at(secret, first) || at(secret, second),
        Meaning::Input { .. } => true,
        Meaning::Assign { value, .. } | Meaning::Write { value, .. } => at(secret, value),
        _ => false,
    }
}

// The row that is then marked: the declaration of a name that is stored to, or else the row itself.
fn asked_row(meaning: Meaning, row: Row, declaration: Option<Row>) -> Row
    ensures { result.0 ≡ asked_row meaning row.0 declaration }
{
    match meaning {
        Meaning::Assign { .. } | Meaning::Write { .. } => declaration.unwrap_or(row),
        _ => row,
    }
}

// The rule of a row is followed; whether that made a mark. (The marks stand beside `named`, since contracts then speak of a `named` that stays
// while they change: a struct of both would be no plainer.)
#[tactic(auto, using(crate::proofs::LabelLaws::target_few, crate::proofs::LabelLaws::followed_unasked, crate::proofs::LabelLaws::followed_marked, crate::proofs::LabelLaws::followed_made))]
fn follow(named: &Named, secret: &mut Notes<bool>, row: Row) -> bool
    requires { row.0 < rows_of named.now.table.now }
    ensures { Followed named.now.table.now named.now.binders.now secret.old secret.new
        row.0 (row.0 + 1) result }
{
    let meaning = named.meaning(row);
    let declaration = named.declaration(row);
    if !asked_by(meaning, declaration, secret) {
        return false;
    }
    let target = asked_row(meaning, row, declaration);
    if at(secret, target) {
        return false;
    }
    secret[target.0 as usize] = true;
    true
}

// The rules of all rows are followed once; whether that made a mark.
fn pass(named: &Named, secret: &mut Notes<bool>) -> bool
    ensures { Followed named.now.table.now named.now.binders.now secret.old secret.new
        0 (rows_of named.now.table.now) result }
{
    let mut made = false;
    for i in 0..named.row_count() {
        made |= follow(named, secret, Row(i));
    }
    made
}

// The secret rows are marked, of a table whose names are known.
#[tactic(auto, using(crate::proofs::LabelLaws::marking_start, crate::proofs::LabelLaws::marking_done, crate::proofs::LabelLaws::marks_le))]
pub fn label(named: &Named, secret: &mut Notes<bool>)
    ensures { Labelled named.now.table.now secret.new }
{
    secret.fill(false);
    while pass(named, secret) {}
}

// Check 7 of a row, by its meaning and the marks: no secret index, and no secret guard of an if.
fn public_by(meaning: Meaning, secret: &Notes<bool>) -> bool
    ensures { result ≡ public_by meaning secret.now }
{
    match meaning {
        Meaning::Element { index, .. } | Meaning::Write { index, .. } => !at(secret, index),
        Meaning::If { guard, .. } => !at(secret, guard),
        _ => true,
    }
}

// Check 7, of a table whose secret rows are marked.
pub fn check_public(table: &[u8], secret: &Notes<bool>) -> Result<(), Row>
    requires { Passes 5 table.now × Labelled table.now secret.now }
    ensures { Finds (failing7 table.now) result }
{
    lowest_failing(row_count(table), |row| {
        public_by(meaning_at(table, row), secret)
    })
}
