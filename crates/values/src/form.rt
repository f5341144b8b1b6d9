ghost use Rattle.values.specs.Values.{numbers};
ghost use Rattle.std.specs.Prelude.{◌≡◌, nat_lt};
ghost use Rattle.values.specs.Lives.{settable};
ghost use Rattle.values.specs.Cells.{formed, each};

use crate::built_in::{BuiltIn, HOST};
use crate::head::Head;
use crate::value::Value;

// Whether a cell of this type number, these flags, this mark and so many parts is well formed.
#[tactic(auto, unfolding(crate::specs::Cells::formed))]
pub fn is_formed(head: Head, count: usize) -> bool
    ensures { result ≡ formed head.ty head.flags head.mark count }
{
    let Head { ty, flags, mark } = head;
    match BuiltIn::try_from(ty) {
        Ok(BuiltIn::Int) => (flags == 0 || (flags == 8 && mark == 0)) && count == 0,
        Ok(BuiltIn::Bool) => flags == 0 && (mark == 0 || mark == 1) && count == 0,
        Ok(BuiltIn::NoneType | BuiltIn::Str) => flags == 0 && mark == 0 && count == 0,
        Ok(BuiltIn::List | BuiltIn::Set | BuiltIn::Tuple) => flags == 2 && mark == 0,
        Ok(BuiltIn::Dict) => flags == 2 && mark == 0 && count % 2 == 0,
        Err(_) => ty >= HOST && flags <= 7 && count == 0,
    }
}

// Whether the place i of a cell of this type is an item of a list or a value of a dict.
pub(crate) fn is_settable(ty: u16, i: usize) -> bool
    ensures { result ≡ settable ty i }
{
    match BuiltIn::try_from(ty) {
        Ok(BuiltIn::List) => true,
        Ok(BuiltIn::Dict) => i % 2 == 1,
        _ => false,
    }
}

// Whether each of the parts is a number below n.
pub(crate) fn all_below(parts: &[Value], n: usize) -> bool
    ensures { result ≡ each (λ p. nat_lt p n) (numbers parts.now) }
{
    parts.iter().all(|p| p.0 < n)
}
