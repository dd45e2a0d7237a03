// Check 5: every name in its scope. A walk over the statements, with a stack of the rows that bind the names in scope.
ghost use Rattle.std.specs.Prelude.{ℕ, List, [], ◌∷◌, ◌++◌};
ghost use Rattle.rules.specs.Answers.{failing5};
ghost use Rattle.rows.specs.Passed.{Passes};
ghost use Rattle.table.specs.Checks.{Finds};
ghost use Rattle.names.specs.Declares.{Declares};
ghost use Rattle.names.specs.Sweep.{LowestOf};

use crate::naming::naming_of;
use crate::notes::Notes;
use crate::search::{allowed, find_named};
use arrayvec::ArrayVec;
use table::meaning::{Meaning, meaning_at};
use table::row::{MAX_ROWS, Row, row_count};
use table::shapes::{Field, Sort, row_words};

// The lowest failing row, after one more has failed.
fn lowered(lowest: Option<Row>, row: Row) -> Option<Row>
    ensures { (ps : List ℕ) → LowestOf ps lowest → LowestOf (ps ++ row.0 ∷ []) result }
{
    Some(lowest.map_or(row, |lowest| lowest.min(row)))
}

// A walk over a table. What holds of it stands in `CanLook`, and not in ghost fields: they were tried, and each change of the scope then
// made a value with other proofs in it, which the laws of the walk could not equate with the one before.
#[derive(Drop)]
struct Walk<'a> {
    table: &'a [u8],
    // The rows that bind the names in scope, the newest last.
    scope: ArrayVec<Row, MAX_ROWS>,
    // Of each row that has been looked at, the row that binds the name in it.
    binders: &'a mut Notes<Option<Row>>,
    // The lowest row that has failed check 5.
    lowest: Option<Row>,
}

impl Walk<'_> {
    ghost use Rattle.names.specs.Walk.{CanLook, CanPart, CanWalk, Looked, Walked, row_sites, head_sites, part_sites};

    // A row: the row that binds its name is noted, and it is checked.
    fn look(&mut self, row: Row)
        requires { CanLook self.old row.0 }
        ensures { Looked self.old self.new (row_sites self.old row.0) }
    {
        let naming = naming_of(meaning_at(self.table, row));
        let binder = find_named(self.table, &self.scope, naming);
        self.binders[row.0 as usize] = binder;
        if !allowed(self.table, naming, binder) {
            self.lowest = lowered(self.lowest, row);
        }
    }

    // A row and the expressions in it. (Its three words one by one: a loop in a cycle of calls needs an invariant of its own, and is no
    // plainer.)
    #[cycle(walk_expr_walk_part)]
    fn walk_expr(&mut self, row: Row)
        requires { CanLook self.old row.0 }
        ensures { Looked self.old self.new (head_sites self.old row.0) }
    {
        let read = row_words(self.table, row);
        let shape = read.shape;
        self.look(row);
        self.walk_part(read.a, shape.a);
        self.walk_part(read.b, shape.b);
        self.walk_part(read.c, shape.c);
    }

    // The expression in a word, where the word's field is one.
    #[cycle(walk_expr_walk_part)]
    fn walk_part(&mut self, word: u32, field: Field)
        requires { CanPart self.old word field }
        ensures { Looked self.old self.new (part_sites self.old field word) }
    {
        if field == Field::Child(Sort::Expr) {
            self.walk_expr(Row(word));
        }
    }

    // A statement with the statements in it: the names that it binds for those after it are in scope from then on.
    fn walk_statement(&mut self, row: Row)
        requires { CanWalk self.old row.0 }
        ensures { Walked self.old self.new row.0 }
    {
        let meaning = meaning_at(self.table, row);
        self.walk_expr(row);
        match meaning {
            Meaning::Declare { .. } => self.scope.push(row),
            Meaning::For { body, .. } => {
                let names = self.scope.len();
                self.scope.push(row);
                self.walk_statement(body);
                self.scope.truncate(names);
            }
            Meaning::If { first, second, .. } => {
                let names = self.scope.len();
                self.walk_statement(first);
                self.scope.truncate(names);
                self.walk_statement(second);
                self.scope.truncate(names);
            }
            Meaning::Then { first, second } => {
                self.walk_statement(first);
                self.walk_statement(second);
            }
            _ => {}
        }
    }
}

// Check 5, of a table that passes check 4. The row that binds the name of each row is noted.
pub fn check_names(table: &[u8], binders: &mut Notes<Option<Row>>) -> Result<(), Row>
    requires { Passes 4 table.now }
    ensures { Finds (failing5 table.now) result × Declares table.now binders.new }
{
    let last = Row(row_count(table) - 1);
    let mut walk = Walk {
        table,
        scope: ArrayVec::new(),
        binders,
        lowest: None,
    };
    walk.walk_statement(last);
    walk.lowest.map_or(Ok(()), Err)
}
