ghost use Rattle.runs.specs.Acts.{alloc_type, check_value, check_told};
ghost use Rattle.working_set.specs.Sets.{Effect};
ghost use Rattle.working_set.specs.Words.{annotation_told};

use crate::set::WorkingSet;
use custom::ty_custom::TyCustom;
use matcher::alloc::TypeMatcherAlloc;
use matching::running::run;
use type_compiled::annotations::TypeCompiled;
use type_compiled::compile::alloc_ty;
use type_compiled::factory::TypeCompiledFactory;
use values::heap::Heap;
use values::refusal::Refusal;
use values::value::Value;

impl<H: Heap, S: TypeMatcherAlloc, C: TyCustom> WorkingSet<H, S, C> {
    // Compiles the factory's type: the number of a new annotation.
    pub fn alloc_ty(&mut self, factory: TypeCompiledFactory) -> Result<TypeCompiled, Refusal>
        ensures { Effect H.Heap S.TypeMatcherAlloc C.TyCustom self.old (alloc_type factory.ty) (annotation_told result) self.new }
    {
        alloc_ty(
            factory,
            &self.types,
            &self.customs,
            &mut self.store,
            &mut self.annotations,
        )
    }

    // Whether a value is a member of a compiled annotation.
    pub fn check(&self, a: TypeCompiled, v: Value) -> Result<bool, Refusal>
        ensures { Effect H.Heap S.TypeMatcherAlloc C.TyCustom self.now (check_value a.0 v.0) (check_told result) self.now }
    {
        let root = self.annotations.root(a)?;
        run(root, v, &self.live, &self.store, &self.customs)
    }
}
