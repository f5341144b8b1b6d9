ghost use Rattle.std.specs.Prelude.{◌≡◌, IfOk};
ghost use Rattle.values.specs.Lives.{cell, blank_over, new_says, new_leaves, put_says, put_leaves, frozen_all, frozen_says, has_room_lem};
ghost use Rattle.values.specs.Values.{numbers};
ghost use Rattle.values.specs.Held.{live_cells, live_of, Found};

use crate::form::{all_below, is_formed, is_settable};
use crate::head::Head;
use crate::heap::Heap;
use crate::live::LiveHeap;
use crate::own::Own;
use crate::own_cells::OwnCells;
use crate::refusal::Refusal;
use crate::value::Value;
use std::alloc::{AllocError, Global};

const ALL_CELLS: usize = 65536;

// What is read below `base` where the heap below has other than `base` cells.
// A constant makes no call, so None's number stands here.
const NONE: Own = Own {
    head: Head {
        ty: 3,
        flags: 0,
        mark: 0,
    },
    first: 0,
    count: 0,
};

impl<H: Heap> LiveHeap<H> {
    // A live heap with no cells of its own; only this call can fail for want of memory.
    pub fn over(heap: Global, below: H) -> Result<LiveHeap<H>, AllocError>
    where
        H: Drop,
        ensures { IfOk result (λ l. (live_of H.Heap.cells l ≡ blank_over (H.Heap.cells below)) × (l.below ≡ below)) }
    {
        let own = OwnCells::new(heap)?;
        let base = below.count();
        Ok(LiveHeap {
            below,
            base,
            own,
            frozen: base,
        })
    }

    // The own cell that a value is, or nothing where it is one of those below.
    #[inline]
    pub(crate) fn own_cell(&self, v: Value) -> Result<Option<Own>, Refusal>
        ensures { Found (live_cells H.Heap.cells self.now) (H.Heap.cells self.now.below) self.now.own.pool.items v.0 result }
    {
        if v.0 < self.base {
            if self.below.count() == self.base {
                return Ok(None);
            }
            return Ok(Some(NONE));
        }
        match self.own.rows.get(v.0 - self.base) {
            Some(own) => Ok(Some(*own)),
            None => Err(Refusal::NoValue),
        }
    }

    // Whether a cell with so many parts has room.
    fn has_room(&self, count: usize) -> bool
        ensures { result ≡ has_room_lem (live_of H.Heap.cells self.now) count }
    {
        self.count() < ALL_CELLS && self.own.has_room(count)
    }

    // A new cell, whose parts already stand.
    pub fn new(&mut self, head: Head, parts: &[Value]) -> Result<Value, Refusal>
        ensures answer { result ≡ new_says (live_of H.Heap.cells self.old) (cell head.ty head.flags head.mark (numbers parts.now)) }
        ensures after { live_of H.Heap.cells self.new ≡ new_leaves (live_of H.Heap.cells self.old) (cell head.ty head.flags head.mark (numbers parts.now)) }
        ensures below { self.new.below ≡ self.old.below }
    {
        let n = self.count();
        if !all_below(parts, n) {
            return Err(Refusal::NoValue);
        }
        if !is_formed(head, parts.len()) {
            return Err(Refusal::BadForm);
        }
        if !self.has_room(parts.len()) {
            return Err(Refusal::NoRoom);
        }
        self.own.add(head, parts);
        Ok(Value(n))
    }

    // Sets an item of a list or a value of a dict.
    pub fn put(&mut self, v: Value, i: usize, x: Value) -> Result<(), Refusal>
        ensures answer { result ≡ put_says (live_of H.Heap.cells self.old) v.0 i x.0 }
        ensures after { live_of H.Heap.cells self.new ≡ put_leaves (live_of H.Heap.cells self.old) v.0 i x.0 }
        ensures below { self.new.below ≡ self.old.below }
    {
        let ty = self.starlark_type_id(v)?;
        self.part(v, i)?;
        if x.0 >= self.count() {
            return Err(Refusal::NoValue);
        }
        if v.0 < self.frozen {
            return Err(Refusal::Frozen);
        }
        if !is_settable(ty, i) {
            return Err(Refusal::NoItem);
        }
        self.own.set_part(v.0 - self.base, i, x.0);
        Ok(())
    }

    // Fixes every cell that stands now.
    pub fn freeze(&mut self)
        ensures after { live_of H.Heap.cells self.new ≡ frozen_all (live_of H.Heap.cells self.old) }
        ensures below { self.new.below ≡ self.old.below }
    {
        self.frozen = self.count();
    }

    // Whether a value's cell is frozen.
    pub fn is_frozen(&self, v: Value) -> Result<bool, Refusal>
        ensures { result ≡ frozen_says (live_of H.Heap.cells self.now) v.0 }
    {
        if v.0 < self.count() {
            Ok(v.0 < self.frozen)
        } else {
            Err(Refusal::NoValue)
        }
    }
}
