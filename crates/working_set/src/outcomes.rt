ghost use Rattle.std.specs.Prelude.{Some, codes};
ghost use Rattle.working_set.specs.Words.{granted_text};

use std::error::Error;
use std::fmt;
use type_compiled::annotations::TypeCompiled;
use values::refusal::Refusal;
use values::value::Value;

// What a call that is granted comes to.
#[derive(Clone, Copy, PartialEq, Eq, Debug)]
pub enum Granted {
    // A new value.
    Value(Value),
    // Put or frozen.
    Done,
    // A type's number.
    Ty(usize),
    Compiled(TypeCompiled),
    // Whether the value is a member.
    Says(bool),
}

impl fmt::Display for Granted {
    ghost output = { λ granted. Some (granted_text granted) };

    fn fmt<W: fmt::Write>(&self, f: &mut fmt::Formatter<W>) -> fmt::Result {
        match self {
            Granted::Value(v) => write!(f, "value {}", v.0),
            Granted::Done => write!(f, "done"),
            Granted::Ty(ty) => write!(f, "type {ty}"),
            Granted::Compiled(a) => write!(f, "annotation {}", a.0),
            Granted::Says(true) => write!(f, "yes"),
            Granted::Says(false) => write!(f, "no"),
        }
    }
}

// What a call comes to.
pub type Outcome = Result<Granted, Refusal>;

// No room for the outcomes of the calls.
#[derive(Clone, Copy, PartialEq, Eq, Debug)]
pub struct OutcomesFull;

impl fmt::Display for OutcomesFull {
    ghost output = { λ _. Some (codes "no room for the outcomes") };

    fn fmt<W: fmt::Write>(&self, f: &mut fmt::Formatter<W>) -> fmt::Result {
        write!(f, "no room for the outcomes")
    }
}

impl Error for OutcomesFull {}
