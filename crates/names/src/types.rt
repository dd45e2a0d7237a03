// Check 6: types. From the lowest row up, so that the types of a row's parts are known.
ghost use Rattle.std.specs.Prelude.{◌≡◌, T};
ghost use Rattle.words.specs.Words.{words};
ghost use Rattle.rules.specs.Rows.{kind_at, is_expr};
ghost use Rattle.rules.specs.Tree.{expr_at};
ghost use Rattle.rules.specs.Types.{type_e, result_type, check6};
ghost use Rattle.rules.specs.Answers.{failing6};
ghost use Rattle.circuit.specs.Gates.{meant_op};
ghost use Rattle.rows.specs.ByRow.{site_at, scope_at};
ghost use Rattle.table.specs.Meaning.{as_type};
ghost use Rattle.table.specs.Checks.{Finds};
ghost use Rattle.names.specs.Types.{type_by, typed_by, read_of, ReadIn, clash_of, seen_after, CanType, InputsSeen};

use crate::named::Named;
use crate::notes::{Given, Notes, at};
use circuit::checks::InputSorts;
use circuit::gates::{Op, Read};
use table::meaning::{Meaning, Ty};
use table::row::{MAX_ROWS, Row};

// The type of what an operator gives.
fn op_type(op: Op) -> Ty
    ensures { result ≡ as_type (result_type (meant_op op)) }
{
    match op {
        Op::Add => Ty::Uint,
        Op::Greater => Ty::Bool,
    }
}

// An expression's type, by its meaning, the type of the name in it, and the types noted of lower rows. The default arm is for numbers,
// and for rows that are no expression, of which the contract of `type_at` says nothing.
fn type_by(meaning: Meaning, given: Ty, types: &Notes<Ty>) -> Ty
    ensures { result ≡ type_by meaning given types.now }
{
    match meaning {
        Meaning::Truth { .. } => Ty::Bool,
        Meaning::Name { .. } | Meaning::Element { .. } => given,
        Meaning::Both { op, .. } => op_type(op),
        Meaning::Cond { first, .. } => at(types, first),
        Meaning::Input { ty, .. } => ty,
        _ => Ty::Uint,
    }
}

// The type of the expression at a row. (`type_at` and `count_at` of check 8, `typed` and `counted`, are not one generic: it would take
// the rule, the type of what is noted and its definition as parameters, three of them for two uses: no plainer.)
#[tactic(auto, using(crate::proofs::TypeLaws::type_at_row))]
fn type_at(named: &Named, types: &Notes<Ty>, row: Row) -> Ty
    requires { CanType named.now.table.now types.now row.0 }
    ensures { T (is_expr (kind_at (words named.now.table.now) row.0))
        → result ≡ as_type (type_e (scope_at named.now.table.now row.0)
        (expr_at (words named.now.table.now) row.0)) }
{
    type_by(named.meaning(row), named.given(row).ty, types)
}

// The input that a row reads, at the sort of its type.
fn read_of(meaning: Meaning) -> Option<Read>
    ensures { result ≡ read_of meaning }
{
    match meaning {
        Meaning::Input { ty, desk, number } => Some(Read {
            desk,
            number,
            sort: ty.into(),
        }),
        _ => None,
    }
}

// A lower row reads the input that a row reads, at the other type.
fn clashes(meaning: Meaning, inputs: &InputSorts) -> bool
    requires { ReadIn (read_of meaning) }
    ensures { result ≡ clash_of inputs.now.sorts (read_of meaning) }
{
    read_of(meaning).is_some_and(|read| inputs.clashes(read))
}

// The input that a row reads is noted.
fn note_read(meaning: Meaning, inputs: &mut InputSorts)
    requires { ReadIn (read_of meaning) }
    ensures { inputs.new.sorts ≡ seen_after inputs.old.sorts (read_of meaning) }
{
    if let Some(read) = read_of(meaning) {
        inputs.note(read);
    }
}

// Check 6 of a row, by its meaning, what is said of the name in it, the types noted of lower rows, and whether it reads an input
// otherwise than a lower row.
fn typed_by(meaning: Meaning, given: Given, types: &Notes<Ty>, clash: bool) -> bool
    ensures { result ≡ typed_by meaning given types.now clash }
{
    match meaning {
        Meaning::Name { .. } => given.length == 0,
        Meaning::Both { first, second, .. } => {
            at(types, first) == Ty::Uint && at(types, second) == Ty::Uint
        }
        Meaning::Cond {
            guard,
            first,
            second,
        } => at(types, guard) == Ty::Bool && at(types, first) == at(types, second),
        Meaning::Element { index, .. } => given.length != 0 && at(types, index) == Ty::Uint,
        Meaning::Input { .. } => !clash,
        Meaning::Assign { value, .. } => given.length == 0 && at(types, value) == given.ty,
        Meaning::Write { index, value, .. } => {
            given.length != 0 && at(types, index) == Ty::Uint && at(types, value) == given.ty
        }
        Meaning::If { guard, .. } => at(types, guard) == Ty::Bool,
        _ => true,
    }
}

// Check 6 of a row.
#[tactic(auto, using(crate::proofs::TypeLaws::typed_at_row, crate::proofs::InputLaws::clash_told, crate::proofs::InputLaws::read_in, crate::proofs::NoteLaws::passes_two))]
fn typed(named: &Named, types: &Notes<Ty>, inputs: &InputSorts, row: Row) -> bool
    requires { CanType named.now.table.now types.now row.0
        × InputsSeen named.now.table.now inputs.now.sorts row.0 }
    ensures { result ≡ check6 (words named.now.table.now) (site_at named.now.table.now row.0) }
{
    let meaning = named.meaning(row);
    typed_by(meaning, named.given(row), types, clashes(meaning, inputs))
}

// Check 6, of a table whose names are known. (Its loop is check 8's with the inputs beside: said once, it would need a closure that
// changes them, and be no plainer.)
pub fn check_types(named: &Named) -> Result<(), Row>
    ensures { Finds (failing6 named.now.table.now) result }
{
    let mut types = [Ty::Uint; MAX_ROWS];
    let mut inputs = InputSorts::new();
    for i in 0..named.row_count() {
        let row = Row(i);
        if !typed(named, &types, &inputs, row) {
            return Err(row);
        }
        types[i as usize] = type_at(named, &types, row);
        note_read(named.meaning(row), &mut inputs);
    }
    Ok(())
}
