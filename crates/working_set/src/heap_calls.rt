ghost use Rattle.values.specs.Lives.{cell};
ghost use Rattle.values.specs.Values.{numbers};
ghost use Rattle.runs.specs.Acts.{new_cell, put_part, freeze_all, done, value_told, done_told};
ghost use Rattle.working_set.specs.Sets.{Effect};

use crate::set::WorkingSet;
use custom::ty_custom::TyCustom;
use matcher::alloc::TypeMatcherAlloc;
use values::head::Head;
use values::heap::Heap;
use values::refusal::Refusal;
use values::value::Value;

impl<H: Heap, S: TypeMatcherAlloc, C: TyCustom> WorkingSet<H, S, C> {
    // A new cell, whose parts already stand.
    pub fn new(&mut self, head: Head, parts: &[Value]) -> Result<Value, Refusal>
        ensures { Effect H.Heap S.TypeMatcherAlloc C.TyCustom self.old (new_cell (cell head.ty head.flags head.mark (numbers parts.now))) (value_told result) self.new }
    {
        self.live.new(head, parts)
    }

    // Sets an item of a list or a value of a dict.
    pub fn put(&mut self, v: Value, i: usize, x: Value) -> Result<(), Refusal>
        ensures { Effect H.Heap S.TypeMatcherAlloc C.TyCustom self.old (put_part v.0 i x.0) (done_told result) self.new }
    {
        self.live.put(v, i, x)
    }

    // Fixes every cell that stands now.
    pub fn freeze(&mut self)
        ensures { Effect H.Heap S.TypeMatcherAlloc C.TyCustom self.old freeze_all done self.new }
    {
        self.live.freeze();
    }
}
