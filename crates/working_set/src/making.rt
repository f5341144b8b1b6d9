ghost use Rattle.std.specs.Prelude.{◌≡◌, [], IfOk};
ghost use Rattle.values.specs.Held.{live_of};
ghost use Rattle.typing.specs.Held.{rows_of};
ghost use Rattle.type_compiled.specs.Compiled.{annotations_of};
ghost use Rattle.working_set.specs.Sets.{state_of, Begun, working_set_of};

use crate::set::WorkingSet;
use custom::ty_custom::TyCustom;
use matcher::alloc::TypeMatcherAlloc;
use std::alloc::{AllocError, Global};
use type_compiled::annotations::Annotations;
use typing::types::Types;
use values::heap::Heap;
use values::live::LiveHeap;

impl<H: Heap, S: TypeMatcherAlloc, C: TyCustom> WorkingSet<H, S, C> {
    // A working set over a heap; it is blank where the store has no nodes. Only this call can fail for want of memory.
    pub fn over(
        heap: Global,
        below: H,
        store: S,
        customs: C,
    ) -> Result<WorkingSet<H, S, C>, AllocError>
    where
        H: Drop,
        S: Drop,
        C: Drop,
        ensures { IfOk result (Begun H.Heap S.TypeMatcherAlloc below store customs) }
    {
        let live = LiveHeap::over(heap, below)?;
        let types = Types::new(heap)?;
        let annotations = Annotations::new(heap)?;
        Ok(WorkingSet {
            live,
            types,
            store,
            annotations,
            customs,
        })
    }

    // A working set of parts that were made elsewhere. They come one by one, since a struct of them would be this one again.
    pub fn of_parts(
        live: LiveHeap<H>,
        types: Types,
        store: S,
        annotations: Annotations,
        customs: C,
    ) -> WorkingSet<H, S, C>
        ensures { result ≡ working_set_of live types store annotations customs }
    {
        WorkingSet {
            live,
            types,
            store,
            annotations,
            customs,
        }
    }
}
