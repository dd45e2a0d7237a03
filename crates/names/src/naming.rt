// What a row means for check 5: what it does with a name.
ghost use Rattle.std.specs.Prelude.{◌≡◌};
ghost use Rattle.names.specs.Naming.{naming_of, is_declare};

use table::meaning::Meaning;

// What is done with a name.
#[derive(Clone, Copy, Debug, PartialEq, Eq)]
pub enum NameUse {
    Reads,
    Binds,
    Stores,
}

// What a row does with the name in it.
#[derive(Clone, Copy, Debug, PartialEq, Eq)]
pub struct Naming {
    pub usage: NameUse,
    pub name: u32,
}

// What a row does with a name, if there is one in it.
pub fn naming_of(meaning: Meaning) -> Option<Naming>
    ensures { result ≡ naming_of meaning }
{
    match meaning {
        Meaning::Name { name } | Meaning::Element { name, .. } => Some(Naming {
            usage: NameUse::Reads,
            name,
        }),
        Meaning::Declare { name, .. } | Meaning::For { name, .. } => Some(Naming {
            usage: NameUse::Binds,
            name,
        }),
        Meaning::Assign { name, .. } | Meaning::Write { name, .. } => Some(Naming {
            usage: NameUse::Stores,
            name,
        }),
        _ => None,
    }
}

// A row declares its name; a loop does not.
pub fn is_declaration(meaning: Meaning) -> bool
    ensures { result ≡ is_declare meaning }
{
    matches!(meaning, Meaning::Declare { .. })
}
