// A value, as it is asked.
ghost use Rattle.std.specs.Prelude.{◌≡◌, ℕ, ◌/◌, ◌%◌, ◌^◌, ◌<◌, ◌&&◌, ◌==◌, length};
ghost use Rattle.values.specs.Cells.{cell_at, head_of};
ghost use Rattle.values.specs.Types.{type_number};
ghost use Rattle.matching.specs.Shapes.{every_if};

use crate::asked::{Quantifier, Shape};
use std::marker::Model;
use values::built_in::BuiltIn;
use values::head::Head;
use values::heap::Heap;
use values::value::Value;

// The flags of a cell.
pub(crate) const CALLABLE: u8 = 1;

pub(crate) const ITERABLE: u8 = 2;

pub(crate) const TYPE: u8 = 4;

// A value that stands in its heap, seen as its cell.
#[derive(Drop)]
pub(crate) struct Subject<'a, H: Heap> {
    heap: &'a H,
    value: Value,
}

impl<'a, H: Heap> Model for Subject<'a, H> {
    ghost use Rattle.std.specs.Prelude.{◌<◌, length};
    ghost use Rattle.values.specs.Cells.{Cell, cell_at};

    ghost Value = { Cell };

    ghost view = { λ s. cell_at (H.cells s.heap.now) s.value.0 };

    ghost invariant = { λ s. s.value.0 < length (H.cells s.heap.now) };
}

impl<'a, H: Heap> Subject<'a, H> {
    #[inline]
    pub(crate) fn new(heap: &'a H, value: Value) -> Subject<'a, H>
        requires { value.0 < length (H.cells heap.now) }
        ensures { result ≡ cell_at (H.cells heap.now) value.0 }
    {
        Subject { heap, value }
    }

    #[inline]
    pub(crate) fn head(&self) -> Head
        ensures { result ≡ head_of self.now }
    {
        self.heap.head(self.value).unwrap()
    }

    // How many parts it has.
    #[inline]
    fn len(&self) -> usize
        ensures { result ≡ length self.now.parts }
    {
        self.heap.len(self.value).unwrap()
    }

    #[inline]
    pub(crate) fn is(&self, ty: BuiltIn) -> bool
        ensures { result ≡ (self.now.ty == type_number ty) }
    {
        self.head().ty == u16::from(ty)
    }

    // Whether it is a tuple of so many parts.
    #[inline]
    pub(crate) fn is_long(&self, len: usize) -> bool
        ensures { result ≡ (self.now.ty == 8 && length self.now.parts == len) }
    {
        self.is(BuiltIn::Tuple) && self.len() == len
    }

    // Whether it has the flag.
    pub(crate) fn has(&self, flag: u8) -> bool
        requires { (k : ℕ) × (flag ≡ 2 ^ k) }
        ensures { result ≡ (self.now.flags / flag % 2 == 1) }
    {
        self.head().flags & flag != 0
    }

    // Every part, of a value of the type; of another the length is not asked.
    #[inline(always)]
    pub(crate) fn every_part(&self, ty: BuiltIn) -> Shape
        ensures { result ≡ every_if (self.now.ty == type_number ty) (length self.now.parts) }
    {
        if self.is(ty) {
            Shape::Asks(Quantifier::Every, self.len())
        } else {
            Shape::Given(false)
        }
    }

    // Every part, of a tuple of so many parts.
    #[inline]
    pub(crate) fn every_place(&self, len: usize) -> Shape
        ensures { result ≡ every_if (self.now.ty == 8 && length self.now.parts == len) len }
    {
        Shape::every_if(self.is_long(len), len)
    }
}
