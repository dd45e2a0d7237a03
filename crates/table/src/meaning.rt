// What a row means: its kind, with the words that the kind lists.
ghost use Rattle.std.specs.Prelude.{◌≡◌};
ghost use Rattle.words.specs.Words.{words};
ghost use Rattle.rules.specs.Tree.{type_of};
ghost use Rattle.rows.specs.Passed.{In};
ghost use Rattle.table.specs.Meaning.{as_type, meaning_of, meaning_at};

use crate::row::Row;
use crate::shapes::{Kind, RowWords, row_words};
use circuit::gates::{Op, Value};
use circuit::sorts::Sort;

// A type, 0 and 1 in a table.
#[derive(Clone, Copy, Debug, Default, PartialEq, Eq)]
pub enum Ty {
    #[default]
    Uint,
    Bool,
}

// The type that a word of a table stands for.
impl From<u32> for Ty {
    ghost from_gives = { λ word ty. ty ≡ as_type (type_of word) };

    #[tactic(auto, unfolding(rules::specs::Tree::type_of))]
    fn from(word: u32) -> Ty {
        if word == 0 { Ty::Uint } else { Ty::Bool }
    }
}

// The number of a type, as a table has it.
impl From<Ty> for u32 {
    ghost use Rattle.table.specs.Meaning.{type_number, meant_type};

    ghost from_gives = { λ ty number. number ≡ type_number (meant_type ty) };

    fn from(ty: Ty) -> u32 {
        match ty {
            Ty::Uint => 0,
            Ty::Bool => 1,
        }
    }
}

// The sort at which a value of a type is kept. (The sorts go by name, a form that document 01 names.)
impl From<Ty> for Sort {
    ghost use Rattle.table.specs.Meaning.{sort_kept};

    ghost from_gives = { λ ty sort. sort ≡ sort_kept ty };

    fn from(ty: Ty) -> Sort {
        match ty {
            Ty::Uint => Sort::ARITHMETIC,
            Ty::Bool => Sort::BIT,
        }
    }
}

// What a row means. (A truth is 0 or 1 by check 2, and its word here, as a number's: the count and the gates take words.) A row of no kind means `Nothing`: `Option<Meaning>` is no plainer, as each pattern of each check would stand in `Some`,
// for a row that check 2 has refused before any of them is asked.
#[derive(Clone, Copy, Debug, PartialEq, Eq)]
pub enum Meaning {
    Number {
        value: Value,
    },
    Truth {
        value: Value,
    },
    Name {
        name: u32,
    },
    Both {
        op: Op,
        first: Row,
        second: Row,
    },
    Cond {
        guard: Row,
        first: Row,
        second: Row,
    },
    Element {
        name: u32,
        index: Row,
    },
    Input {
        ty: Ty,
        // A number: `meaning_at` speaks of whatever words stand in the row. It is 1 or 2 by check 2.
        desk: u32,
        number: u32,
    },
    Declare {
        name: u32,
        ty: Ty,
        length: u32,
    },
    Assign {
        name: u32,
        value: Row,
    },
    For {
        name: u32,
        body: Row,
        first: u32,
        last: u32,
    },
    Write {
        name: u32,
        index: Row,
        value: Row,
    },
    If {
        guard: Row,
        first: Row,
        second: Row,
    },
    Out {
        value: Row,
    },
    Then {
        first: Row,
        second: Row,
    },
    Nothing,
}

// The meaning of a row by its words.
impl From<RowWords> for Meaning {
    ghost from_gives = { λ read meaning. meaning ≡ meaning_of read.shape.kind read.a read.b read.c };

    fn from(read: RowWords) -> Meaning {
        match read.shape.kind {
            Kind::Unknown => Meaning::Nothing,
            Kind::Number => Meaning::Number {
                value: Value(read.a),
            },
            Kind::Truth => Meaning::Truth {
                value: Value(read.a),
            },
            Kind::Name => Meaning::Name { name: read.a },
            Kind::Both { op } => Meaning::Both {
                op,
                first: Row(read.a),
                second: Row(read.b),
            },
            Kind::Cond => Meaning::Cond {
                guard: Row(read.a),
                first: Row(read.b),
                second: Row(read.c),
            },
            Kind::Element => Meaning::Element {
                name: read.a,
                index: Row(read.b),
            },
            Kind::Input => Meaning::Input {
                ty: Ty::from(read.a),
                desk: read.b,
                number: read.c,
            },
            Kind::Declare => Meaning::Declare {
                name: read.a,
                ty: Ty::from(read.b),
                length: read.c,
            },
            Kind::Assign => Meaning::Assign {
                name: read.a,
                value: Row(read.b),
            },
            Kind::For => Meaning::For {
                name: read.a,
                body: Row(read.b),
                first: read.c / 65536,
                last: read.c % 65536,
            },
            Kind::Write => Meaning::Write {
                name: read.a,
                index: Row(read.b),
                value: Row(read.c),
            },
            Kind::If => Meaning::If {
                guard: Row(read.a),
                first: Row(read.b),
                second: Row(read.c),
            },
            Kind::Out => Meaning::Out { value: Row(read.a) },
            Kind::Then => Meaning::Then {
                first: Row(read.a),
                second: Row(read.b),
            },
        }
    }
}

// The meaning of a row, whatever its words are.
#[tactic(auto, unfolding(crate::specs::Meaning::meaning_at))]
pub fn meaning_at(table: &[u8], row: Row) -> Meaning
    requires { In table.now row.0 }
    ensures { result ≡ meaning_at (words table.now) row.0 }
{
    Meaning::from(row_words(table, row))
}
