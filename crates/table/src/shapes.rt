// The shape of each kind of row, a fixed table with a line for each kind; and the words of a row, read with its shape.
ghost use Rattle.std.specs.Prelude.{◌≡◌, get_or};
ghost use Rattle.words.specs.Words.{words};
ghost use Rattle.rules.specs.Rows as rules;
ghost use Rattle.rules.specs.Rows.{kinds};
ghost use Rattle.rows.specs.Passed.{In};
ghost use Rattle.table.specs.Shapes.{as_shape, child_in, children, fields, row_words};

use crate::row::{Row, word_at};
use circuit::gates::Op;

// The kinds of rows. A number that is no kind is `Unknown`, as in the rules, where every number has a kind and a shape (the clause of
// `shape_of`). `Option<Kind>` is no plainer: the one match on a kind (`Meaning::from`) would have an arm `None` for the arm `Unknown`.
#[derive(Clone, Copy, Debug, PartialEq, Eq)]
pub enum Kind {
    Unknown,
    Number,
    Truth,
    Name,
    Both { op: Op },
    Cond,
    Element,
    Input,
    Declare,
    Assign,
    For,
    Write,
    If,
    Out,
    Then,
}

// What a row is, where its kind is known.
#[derive(Clone, Copy, Debug, PartialEq, Eq)]
pub enum Sort {
    Expr,
    Stmt,
}

// What a word of a row holds: a number of a range, or the row of an expression or of a statement.
#[derive(Clone, Copy, Debug, PartialEq, Eq)]
pub enum Field {
    Within { low: u32, high: u32 },
    Child(Sort),
}

// A kind, what its rows are, and the fields a, b and c.
#[derive(Clone, Copy, Debug, PartialEq, Eq)]
pub struct Shape {
    pub kind: Kind,
    pub sort: Option<Sort>,
    pub a: Field,
    pub b: Field,
    pub c: Field,
}

// The words a, b and c of a row, with the shape of its kind.
#[derive(Clone, Copy, Debug, PartialEq, Eq)]
pub struct RowWords {
    pub shape: Shape,
    pub a: u32,
    pub b: u32,
    pub c: u32,
}

const ANY: Field = Field::Within {
    low: 0,
    high: u32::MAX,
};

const ZERO: Field = Field::Within { low: 0, high: 0 };

const NEVER: Field = Field::Within { low: 1, high: 0 };

const BIT: Field = Field::Within { low: 0, high: 1 };

const NAME: Field = Field::Within { low: 0, high: 63 };

const DESK: Field = Field::Within { low: 1, high: 2 };

const NUMBER: Field = Field::Within { low: 0, high: 63 };

const LENGTH: Field = Field::Within { low: 0, high: 64 };

const EXPR: Field = Field::Child(Sort::Expr);

const STMT: Field = Field::Child(Sort::Stmt);

const UNKNOWN: Shape = Shape {
    kind: Kind::Unknown,
    sort: None,
    a: NEVER,
    b: NEVER,
    c: NEVER,
};

// The shape of a kind that is an expression or a statement.
macro_rules! shape {
    ($sort:ident, $kind:expr, $a:expr, $b:expr, $c:expr) => {
        Shape {
            kind: $kind,
            sort: Some(Sort::$sort),
            a: $a,
            b: $b,
            c: $c,
        }
    };
}

// The shape of each kind by its number, from 0 on. Document 01 ("The forms we use") names this form: a constant table.
const SHAPES: [Shape; 23] = [
    UNKNOWN,
    shape!(Expr, Kind::Number, ANY, ZERO, ZERO),
    shape!(Expr, Kind::Truth, BIT, ZERO, ZERO),
    shape!(Expr, Kind::Name, NAME, ZERO, ZERO),
    shape!(Expr, Kind::Both { op: Op::Add }, EXPR, EXPR, ZERO),
    shape!(Expr, Kind::Cond, EXPR, EXPR, EXPR),
    shape!(Expr, Kind::Both { op: Op::Greater }, EXPR, EXPR, ZERO),
    shape!(Expr, Kind::Element, NAME, EXPR, ZERO),
    shape!(Expr, Kind::Input, BIT, DESK, NUMBER),
    UNKNOWN,
    UNKNOWN,
    UNKNOWN,
    UNKNOWN,
    UNKNOWN,
    UNKNOWN,
    UNKNOWN,
    shape!(Stmt, Kind::Declare, NAME, BIT, LENGTH),
    shape!(Stmt, Kind::Assign, NAME, EXPR, ZERO),
    shape!(Stmt, Kind::For, NAME, STMT, ANY),
    shape!(Stmt, Kind::Write, NAME, EXPR, EXPR),
    shape!(Stmt, Kind::If, EXPR, STMT, STMT),
    shape!(Stmt, Kind::Out, EXPR, ZERO, ZERO),
    shape!(Stmt, Kind::Then, STMT, STMT, ZERO),
];

impl Field {
    // The row that a word names, where the field holds one.
    pub fn child(self, word: u32) -> Option<Row>
        ensures { result ≡ child_in self word }
    {
        match self {
            Field::Within { .. } => None,
            Field::Child(_) => Some(Row(word)),
        }
    }
}

impl RowWords {
    // The words of a row, each with its field.
    pub fn fields(self) -> [(u32, Field); 3]
        ensures { result ≡ fields self }
    {
        let shape = self.shape;
        [(self.a, shape.a), (self.b, shape.b), (self.c, shape.c)]
    }

    // The children of a row, by the words that hold them.
    pub fn children(self) -> [Option<Row>; 3]
        ensures { result ≡ children self }
    {
        self.fields().map(|(word, field)| field.child(word))
    }
}

// The shape of a kind's number; a number past the table is no kind.
pub fn shape_of(kind: u32) -> Shape
    ensures { result ≡ as_shape (get_or kinds kind rules.unknown) }
{
    SHAPES.get(kind as usize).copied().unwrap_or(UNKNOWN)
}

// The words of a row, with its shape. (That the row lies in the table: see `word_at`.)
#[tactic(auto, unfolding(rules::specs::Rows::kind_at))]
pub fn row_words(table: &[u8], row: Row) -> RowWords
    requires { In table.now row.0 }
    ensures { result ≡ row_words (words table.now) row.0 }
{
    RowWords {
        shape: shape_of(word_at(table, row, 0)),
        a: word_at(table, row, 1),
        b: word_at(table, row, 2),
        c: word_at(table, row, 3),
    }
}
