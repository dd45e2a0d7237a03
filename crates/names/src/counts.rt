// Check 8: every index counts below its array's length. From the lowest row up, so that the counts of a row's parts are known.
ghost use Rattle.std.specs.Prelude.{◌≡◌, T};
ghost use Rattle.words.specs.Words.{words};
ghost use Rattle.rules.specs.Rows.{kind_at, is_expr};
ghost use Rattle.rules.specs.Tree.{expr_at};
ghost use Rattle.rules.specs.Counts.{count_two, count, check8};
ghost use Rattle.rules.specs.Answers.{failing8};
ghost use Rattle.circuit.specs.Gates.{meant_op};
ghost use Rattle.rows.specs.ByRow.{site_at, scope_at};
ghost use Rattle.table.specs.Checks.{Finds};
ghost use Rattle.names.specs.Counts.{count_by, counted_by, CanCount};

use crate::named::Named;
use crate::notes::{Notes, at};
use circuit::gates::Op;
use std::cmp::max;
use table::meaning::Meaning;
use table::row::{MAX_ROWS, Row};

// What an operator counts, by what its two sides count.
#[tactic(auto, unfolding(rules::specs::Counts::count_two))]
fn op_count(op: Op, a: u32, b: u32) -> u32
    ensures { result ≡ count_two (meant_op op) a b }
{
    match op {
        Op::Add => a.saturating_add(b),
        Op::Greater => u32::MAX,
    }
}

// The count of an expression, by its meaning, the count of the name in it, and the counts noted of lower rows. The default arm is for
// what counts no less than any word, and for rows that are no expression, of which the contract of `count_at` says nothing.
fn count_by(meaning: Meaning, given: u32, counts: &Notes<u32>) -> u32
    ensures { result ≡ count_by meaning given counts.now }
{
    match meaning {
        Meaning::Number { value } => value.0,
        Meaning::Name { .. } => given,
        Meaning::Both { op, first, second } => op_count(op, at(counts, first), at(counts, second)),
        Meaning::Cond { first, second, .. } => max(at(counts, first), at(counts, second)),
        _ => u32::MAX,
    }
}

// The count of the expression at a row. (See `type_at`, for this and what follows.)
#[tactic(auto, using(crate::proofs::CountLaws::count_at_row))]
fn count_at(named: &Named, counts: &Notes<u32>, row: Row) -> u32
    requires { CanCount named.now.table.now counts.now row.0 }
    ensures { T (is_expr (kind_at (words named.now.table.now) row.0))
        → result ≡ count (scope_at named.now.table.now row.0) (expr_at (words named.now.table.now) row.0) }
{
    count_by(named.meaning(row), named.given(row).count, counts)
}

// Check 8 of a row, by its meaning, the length of the array that it names, and the counts noted of lower rows.
fn counted_by(meaning: Meaning, size: u32, counts: &Notes<u32>) -> bool
    ensures { result ≡ counted_by meaning size counts.now }
{
    match meaning {
        Meaning::Element { index, .. } | Meaning::Write { index, .. } => at(counts, index) < size,
        _ => true,
    }
}

// Check 8 of a row.
#[tactic(auto, using(crate::proofs::CountLaws::counted_at_row))]
fn counted(named: &Named, counts: &Notes<u32>, row: Row) -> bool
    requires { CanCount named.now.table.now counts.now row.0 }
    ensures { result ≡ check8 (site_at named.now.table.now row.0) }
{
    counted_by(named.meaning(row), named.given(row).length, counts)
}

// Check 8, of a table whose names are known (and, where it is run, that passes 6 and 7).
pub fn check_indexes(named: &Named) -> Result<(), Row>
    ensures { Finds (failing8 named.now.table.now) result }
{
    let mut counts = [0u32; MAX_ROWS];
    for i in 0..named.row_count() {
        let row = Row(i);
        if !counted(named, &counts, row) {
            return Err(row);
        }
        counts[i as usize] = count_at(named, &counts, row);
    }
    Ok(())
}
