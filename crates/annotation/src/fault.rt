// Why a text is turned down, and where.
ghost use Rattle.std.specs.Prelude.{◌≡◌};
ghost use Rattle.annotation.specs.declared.fault.TextFault.{TextFault};
ghost use Rattle.annotation.specs.Faults.{code_of, byte_of};

use grammar::fault::Fault;
use values::refusal::Refusal;

// The number of a text that is outside its grammar or length.
const OUTSIDE: u8 = 11;

#[derive(Clone, Copy)]
pub enum TextFault {
    // The text is outside its grammar or length.
    Outside(Fault),
    // A type call is refused.
    Call(Placed),
}

// A refused type call and the first byte of its alternative.
#[derive(Clone, Copy)]
pub struct Placed {
    pub why: Refusal,
    pub byte: usize,
}

impl From<Fault> for TextFault {
    ghost from_gives = { λ x y. y ≡ TextFault.Outside x };

    fn from(value: Fault) -> TextFault {
        TextFault::Outside(value)
    }
}

impl From<Placed> for TextFault {
    ghost from_gives = { λ x y. y ≡ TextFault.Call x };

    fn from(value: Placed) -> TextFault {
        TextFault::Call(value)
    }
}

impl TextFault {
    // The number of the reason.
    pub fn code(self) -> u8
        ensures { result ≡ code_of self }
    {
        match self {
            TextFault::Outside(_) => OUTSIDE,
            TextFault::Call(placed) => u8::from(placed.why),
        }
    }

    // The byte of the text.
    pub fn byte(self) -> usize
        ensures { result ≡ byte_of self }
    {
        match self {
            TextFault::Outside(fault) => fault.byte,
            TextFault::Call(placed) => placed.byte,
        }
    }
}
