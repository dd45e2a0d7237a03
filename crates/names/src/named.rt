// A table whose names are known: it passes check 5, and where a row's name stands for something, the row that binds it is noted.
ghost use Rattle.std.specs.Prelude.{◌≡◌, ◌<◌, None, get_or};
ghost use Rattle.std.proofs.Props.{props};
ghost use Rattle.words.specs.Words.{words};
ghost use Rattle.rules.specs.Answers.{rows_of};
ghost use Rattle.rows.specs.Passed.{Passes};
ghost use Rattle.table.specs.Meaning.{meaning_at};
ghost use Rattle.names.specs.Declares.{Knows};
ghost use Rattle.names.specs.Notes.{given_at, declaration_at};

use crate::naming::is_declaration;
use crate::notes::{Given, Notes, at, given_by};
use table::meaning::{Meaning, meaning_at};
use table::row::{Row, row_count};

#[derive(Clone, Copy)]
pub struct Named<'a> {
    pub table: &'a [u8],
    // Of each row whose name stands for something, the row that binds the name.
    pub binders: &'a Notes<Option<Row>>,
    ghost passes: { Passes 5 table.now },
    ghost knows: { Knows table.now binders.now } by { Prim.hlevel props },
}

// That a row is one of the table stays a clause of each method: a row's number comes from a loop or out of the table's own words, so a
// type of rows bound to the table would be built with the same proof at each call.
impl Named<'_> {
    pub fn row_count(&self) -> u32
        ensures { result ≡ rows_of self.now.table.now }
    {
        row_count(self.table)
    }

    pub fn meaning(&self, row: Row) -> Meaning
        requires { row.0 < rows_of self.now.table.now }
        ensures { result ≡ meaning_at (words self.now.table.now) row.0 }
    {
        meaning_at(self.table, row)
    }

    // What the row that is noted says of its name: where a row's name stands for something, what is said of that.
    pub fn given(&self, row: Row) -> Given
        requires { row.0 < rows_of self.now.table.now }
        ensures { result ≡ given_at (words self.now.table.now) (get_or self.now.binders.now row.0 None) }
    {
        match at(self.binders, row) {
            Some(binder) => given_by(self.meaning(binder)),
            None => Given::default(),
        }
    }

    // The row that is noted, if that is a declaration: where a row's name stands for something, the declaration that it stands for.
    pub fn declaration(&self, row: Row) -> Option<Row>
        requires { row.0 < rows_of self.now.table.now }
        ensures { result ≡ declaration_at (words self.now.table.now) (get_or self.now.binders.now row.0 None) }
    {
        let binder = at(self.binders, row)?;
        is_declaration(self.meaning(binder)).then_some(binder)
    }
}
