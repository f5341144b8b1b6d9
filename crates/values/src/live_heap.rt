ghost use Rattle.values.specs.Held.{live_cells};
ghost use Rattle.std.specs.Prelude.{◌≡◌};
ghost use Rattle.std.proofs.Common.{arith};
ghost use Rattle.values.specs.Floors.{length_live, live_formed, live_closed};

use crate::head::Head;
use crate::heap::Heap;
use crate::live::LiveHeap;
use crate::refusal::Refusal;
use crate::value::Value;

// Each question of the trait goes to the own cell or to the heap below.
impl<H: Heap> Heap for LiveHeap<H> {
    ghost cells = { λ l. live_cells H.Heap.cells l };

    ghost closed = { λ l. live_closed H.Heap.cells l (H.Heap.closed l.below) };

    ghost few = { λ l. omega (arith, length_live H.Heap.cells l, l.few) };

    ghost formed = { λ l. live_formed H.Heap.cells l (H.Heap.formed l.below) };

    fn count(&self) -> usize {
        self.base + self.own.rows.len()
    }

    #[inline]
    fn head(&self, v: Value) -> Result<Head, Refusal> {
        match self.own_cell(v)? {
            Some(own) => Ok(own.head),
            None => self.below.head(v),
        }
    }

    #[inline]
    fn len(&self, v: Value) -> Result<usize, Refusal> {
        match self.own_cell(v)? {
            Some(own) => Ok(own.count),
            None => self.below.len(v),
        }
    }

    #[inline]
    fn part(&self, v: Value, i: usize) -> Result<Value, Refusal> {
        match self.own_cell(v)? {
            Some(own) if i < own.count => Ok(Value(self.own.pool[own.first + i])),
            Some(_) => Err(Refusal::NoValue),
            None => self.below.part(v, i),
        }
    }
}
