ghost use Rattle.std.specs.Prelude.{[]};
ghost use Rattle.std.proofs.Common.{rules};

use crate::head::Head;
use crate::heap::Heap;
use crate::refusal::Refusal;
use crate::value::Value;

// The heap with no cells.
#[derive(Clone, Copy)]
pub struct EmptyHeap;

impl Heap for EmptyHeap {
    ghost cells = { λ _. [] };

    ghost closed = { Prim.search rules };

    ghost few = { Prim.search rules };

    ghost formed = { Prim.search rules };

    fn count(&self) -> usize {
        0
    }

    fn head(&self, _v: Value) -> Result<Head, Refusal> {
        Err(Refusal::NoValue)
    }

    fn len(&self, _v: Value) -> Result<usize, Refusal> {
        Err(Refusal::NoValue)
    }

    fn part(&self, _v: Value, _i: usize) -> Result<Value, Refusal> {
        Err(Refusal::NoValue)
    }
}
