// The search for a name in its scope, and check 5 of what is found.
ghost use Rattle.std.specs.Prelude.{◌≡◌};
ghost use Rattle.std.specs.Option.{ForSome};
ghost use Rattle.words.specs.Words.{words};
ghost use Rattle.rows.specs.Passed.{In};
ghost use Rattle.names.specs.Declares.{known_by};
ghost use Rattle.names.specs.Naming.{passes_by};
ghost use Rattle.names.specs.Stack.{Stacked, found_in, binder_in};

use crate::naming::{NameUse, Naming, is_declaration};
use table::meaning::meaning_at;
use table::row::{Row, word_at};

// The search for the row that binds a name, among the rows that bind the names in scope, from the newest backwards. Document 01 ("The
// forms we use") names its form: a loop over them that yields the row by break.
fn find(table: &[u8], scope: &[Row], name: u32) -> Option<Row>
    requires { Stacked table.now scope.now }
    ensures { result ≡ found_in (words table.now) scope.now name }
{
    let mut entries = scope;
    loop {
        let Some((&row, older)) = entries.split_last() else {
            break None;
        };
        if word_at(table, row, 1) == name {
            break Some(row);
        }
        entries = older;
    }
}

// The row that binds the name in a row, if there is one in it and it is in scope.
pub fn find_named(table: &[u8], scope: &[Row], naming: Option<Naming>) -> Option<Row>
    requires { Stacked table.now scope.now }
    ensures { result ≡ binder_in (words table.now) scope.now naming }
{
    naming.and_then(|naming| find(table, scope, naming.name))
}

// Check 5 of a row, by what it does with a name and the row that binds the name: one that is read is in scope, one that is bound is not,
// and one that is stored to is declared.
#[tactic(auto, using(crate::proofs::NamingLaws::declare_at))]
pub fn allowed(table: &[u8], naming: Option<Naming>, binder: Option<Row>) -> bool
    requires { ForSome binder (λ row. In table.now row.0) }
    ensures { result ≡ passes_by naming (known_by (words table.now) binder) }
{
    let Some(naming) = naming else {
        return true;
    };
    match naming.usage {
        NameUse::Reads => binder.is_some(),
        NameUse::Binds => binder.is_none(),
        NameUse::Stores => binder.is_some_and(|row| is_declaration(meaning_at(table, row))),
    }
}
