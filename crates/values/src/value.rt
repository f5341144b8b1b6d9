ghost use Rattle.std.specs.Prelude.{Some, decimal};

use std::fmt;

// A value: the number of its cell, from 0.
#[derive(Clone, Copy, PartialEq, Eq, Debug)]
pub struct Value(pub usize);

impl fmt::Display for Value {
    ghost output = { λ v. Some (decimal v.0) };

    fn fmt<W: fmt::Write>(&self, f: &mut fmt::Formatter<W>) -> fmt::Result {
        write!(f, "{}", self.0)
    }
}
