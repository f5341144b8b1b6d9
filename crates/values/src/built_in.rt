ghost use Rattle.std.specs.Prelude.{◌≡◌};
ghost use Rattle.values.specs.Types.{type_number, Names, type_numbered};

// The types that each host has.
#[derive(Clone, Copy, PartialEq, Eq, Debug)]
pub enum BuiltIn {
    Int,
    Bool,
    NoneType,
    Str,
    List,
    Dict,
    Set,
    Tuple,
}

// The lowest number of a host's own type.
pub(crate) const HOST: u16 = 16;

impl From<BuiltIn> for u16 {
    ghost from_gives = { λ b n. n ≡ type_number b };

    fn from(b: BuiltIn) -> u16 {
        match b {
            BuiltIn::Int => 1,
            BuiltIn::Bool => 2,
            BuiltIn::NoneType => 3,
            BuiltIn::Str => 4,
            BuiltIn::List => 5,
            BuiltIn::Dict => 6,
            BuiltIn::Set => 7,
            BuiltIn::Tuple => 8,
        }
    }
}

// A number of no built-in type.
#[derive(Clone, Copy, PartialEq, Eq, Debug)]
pub struct NotBuiltIn(pub u16);

impl TryFrom<u16> for BuiltIn {
    type Error = NotBuiltIn;

    ghost try_from_gives = { Names };

    fn try_from(n: u16) -> Result<BuiltIn, NotBuiltIn> {
        match n {
            1 => Ok(BuiltIn::Int),
            2 => Ok(BuiltIn::Bool),
            3 => Ok(BuiltIn::NoneType),
            4 => Ok(BuiltIn::Str),
            5 => Ok(BuiltIn::List),
            6 => Ok(BuiltIn::Dict),
            7 => Ok(BuiltIn::Set),
            8 => Ok(BuiltIn::Tuple),
            _ => Err(NotBuiltIn(n)),
        }
    }
}

// Whether a type has the number: a built-in one, or one of a host's own.
pub fn is_type_number(n: u16) -> bool
    ensures { result ≡ type_numbered n }
{
    BuiltIn::try_from(n).is_ok() || n >= HOST
}
