ghost use Rattle.std.specs.Prelude.{◌≡◌, vec_capacity};
ghost use Rattle.working_set.specs.Sets.{Effect};
ghost use Rattle.working_set.specs.Words.{act, told};
ghost use Rattle.working_set.specs.Performed.{Performed, places};

use crate::calls::Call;
use crate::outcomes::{Granted, Outcome, OutcomesFull};
use crate::set::WorkingSet;
use custom::ty_custom::TyCustom;
use matcher::alloc::TypeMatcherAlloc;
use type_compiled::factory::TypeCompiledFactory;
use values::heap::Heap;

impl<H: Heap, S: TypeMatcherAlloc, C: TyCustom> WorkingSet<H, S, C> {
    // One call.
    fn make(&mut self, call: &Call) -> Outcome
        ensures { Effect H.Heap S.TypeMatcherAlloc C.TyCustom self.old (act call.now) (told result) self.new }
    {
        match call {
            Call::New(head, parts) => self.new(*head, parts).map(Granted::Value),
            Call::Put { value, place, part } => {
                self.put(*value, *place, *part).map(|()| Granted::Done)
            }
            Call::Freeze => {
                self.freeze();
                Ok(Granted::Done)
            }
            Call::StarlarkValue(number) => self.starlark_value(*number).map(Granted::Ty),
            Call::Iter(item) => self.iter(*item).map(Granted::Ty),
            Call::Callable => self.callable().map(Granted::Ty),
            Call::TypeOfTypes => self.type_of_types().map(Granted::Ty),
            Call::List(item) => self.list(*item).map(Granted::Ty),
            Call::Tuple(elements) => self.tuple(elements).map(Granted::Ty),
            Call::TupleOf(item) => self.tuple_of(*item).map(Granted::Ty),
            Call::Dict { key, value } => self.dict(*key, *value).map(Granted::Ty),
            Call::Custom(number) => self.custom(*number).map(Granted::Ty),
            Call::Set(item) => self.set(*item).map(Granted::Ty),
            Call::Union2(a, b) => self.union2(*a, *b).map(Granted::Ty),
            Call::AllocTy(ty) => self
                .alloc_ty(TypeCompiledFactory::new(*ty))
                .map(Granted::Compiled),
            Call::Check(a, v) => self.check(*a, *v).map(Granted::Says),
        }
    }

    // Makes the calls in turn; their outcomes go into places that are reserved, and where there are too few it makes no call.
    pub fn perform(
        &mut self,
        calls: &[Call],
        outcomes: &mut Vec<Outcome>,
    ) -> Result<(), OutcomesFull>
        ensures { Performed H.Heap S.TypeMatcherAlloc C.TyCustom calls.now self.old self.new (places outcomes.old.items (vec_capacity outcomes.old)) (places outcomes.new.items (vec_capacity outcomes.new)) result }
    {
        if outcomes.capacity() - outcomes.len() < calls.len() {
            return Err(OutcomesFull);
        }
        for call in calls {
            let outcome = self.make(call);
            outcomes.push_reserved(outcome);
        }
        Ok(())
    }
}
