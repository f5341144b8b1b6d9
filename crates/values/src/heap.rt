ghost use Rattle.std.specs.Prelude.{◌≡◌, ℕ, ◌≤◌, List, length, nat_eq};
ghost use Rattle.values.specs.Cells.{Cell, Closed, Formed, cell_says, cell_part, head_of, head_mark_if, mark_if_lem, most};
ghost use Rattle.values.specs.Types.{type_number};

use crate::built_in::BuiltIn;
use crate::head::Head;
use crate::refusal::Refusal;
use crate::value::Value;

// A heap means a list of cells, and a value is a cell's number, from 0.
pub trait Heap {
    ghost cells: { Self → List Cell };

    // How many cells there are.
    fn count(&self) -> usize
        ensures { result ≡ length (cells self.now) };

    // The type number, the flags and the mark of a value.
    fn head(&self, v: Value) -> Result<Head, Refusal>
        ensures { result ≡ cell_says (cells self.now) v.0 head_of };

    // How many parts a value has.
    fn len(&self, v: Value) -> Result<usize, Refusal>
        ensures { result ≡ cell_says (cells self.now) v.0 (λ c. length c.parts) };

    // The part at the place i.
    fn part(&self, v: Value, i: usize) -> Result<Value, Refusal>
        ensures { result ≡ cell_part (cells self.now) v.0 i };

    // The type number of a value.
    fn starlark_type_id(&self, v: Value) -> Result<u16, Refusal>
        ensures { result ≡ cell_says (cells self.now) v.0 (λ c. c.ty) }
    {
        Ok(self.head(v)?.ty)
    }

    fn flags(&self, v: Value) -> Result<u8, Refusal>
        ensures { result ≡ cell_says (cells self.now) v.0 (λ c. c.flags) }
    {
        Ok(self.head(v)?.flags)
    }

    fn mark(&self, v: Value) -> Result<i64, Refusal>
        ensures { result ≡ cell_says (cells self.now) v.0 (λ c. c.mark) }
    {
        Ok(self.head(v)?.mark)
    }

    fn is_none(&self, v: Value) -> Result<bool, Refusal>
        ensures { result ≡ cell_says (cells self.now) v.0 (λ c. nat_eq c.ty 3) }
    {
        Ok(self.head(v)?.ty == u16::from(BuiltIn::NoneType))
    }

    // The mark of a bool, nothing of any other value.
    fn unpack_bool(&self, v: Value) -> Result<Option<i64>, Refusal>
        ensures { result ≡ cell_says (cells self.now) v.0 (mark_if_lem 2) }
    {
        Ok(mark_if(self.head(v)?, BuiltIn::Bool))
    }

    // The mark of a str, nothing of any other value.
    fn unpack_str(&self, v: Value) -> Result<Option<i64>, Refusal>
        ensures { result ≡ cell_says (cells self.now) v.0 (mark_if_lem 4) }
    {
        Ok(mark_if(self.head(v)?, BuiltIn::Str))
    }

    // The mark of an int, nothing of any other value.
    fn unpack_int(&self, v: Value) -> Result<Option<i64>, Refusal>
        ensures { result ≡ cell_says (cells self.now) v.0 (mark_if_lem 1) }
    {
        Ok(mark_if(self.head(v)?, BuiltIn::Int))
    }

    ghost closed: { (h : Self) → Closed (cells h) };

    ghost few: { (h : Self) → length (cells h) ≤ most };

    ghost formed: { (h : Self) → Formed (cells h) };
}

// The mark of a value of the type.
fn mark_if(head: Head, ty: BuiltIn) -> Option<i64>
    ensures { result ≡ head_mark_if (type_number ty) head }
{
    if head.ty == u16::from(ty) {
        Some(head.mark)
    } else {
        None
    }
}
