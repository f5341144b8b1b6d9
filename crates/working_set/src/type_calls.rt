ghost use Rattle.membership.specs.Rows.{plain, iter, callable, kind, list, tuple, tuple_of, dict, custom, set_of};
ghost use Rattle.runs.specs.Acts.{make_type, union_of, type_told};
ghost use Rattle.working_set.specs.Sets.{Effect};

use crate::set::WorkingSet;
use custom::ty_custom::TyCustom;
use matcher::alloc::TypeMatcherAlloc;
use values::heap::Heap;
use values::refusal::Refusal;

impl<H: Heap, S: TypeMatcherAlloc, C: TyCustom> WorkingSet<H, S, C> {
    // The type of the values with this type number.
    pub fn starlark_value(&mut self, number: u16) -> Result<usize, Refusal>
        ensures { Effect H.Heap S.TypeMatcherAlloc C.TyCustom self.old (make_type (plain number)) (type_told result) self.new }
    {
        self.types.starlark_value(number)
    }

    // The type of what can be iterated over.
    pub fn iter(&mut self, item: usize) -> Result<usize, Refusal>
        ensures { Effect H.Heap S.TypeMatcherAlloc C.TyCustom self.old (make_type (iter item)) (type_told result) self.new }
    {
        self.types.iter(item)
    }

    // The type of what can be called.
    pub fn callable(&mut self) -> Result<usize, Refusal>
        ensures { Effect H.Heap S.TypeMatcherAlloc C.TyCustom self.old (make_type callable) (type_told result) self.new }
    {
        self.types.callable()
    }

    // The type of what stands for a type.
    pub fn type_of_types(&mut self) -> Result<usize, Refusal>
        ensures { Effect H.Heap S.TypeMatcherAlloc C.TyCustom self.old (make_type kind) (type_told result) self.new }
    {
        self.types.type_of_types()
    }

    // The type `list[item]`.
    pub fn list(&mut self, item: usize) -> Result<usize, Refusal>
        ensures { Effect H.Heap S.TypeMatcherAlloc C.TyCustom self.old (make_type (list item)) (type_told result) self.new }
    {
        self.types.list(item)
    }

    // The type `tuple[..]` of these elements.
    pub fn tuple(&mut self, elements: &[usize]) -> Result<usize, Refusal>
        ensures { Effect H.Heap S.TypeMatcherAlloc C.TyCustom self.old (make_type (tuple elements.now)) (type_told result) self.new }
    {
        self.types.tuple(elements)
    }

    // The type `tuple[item, ...]`.
    pub fn tuple_of(&mut self, item: usize) -> Result<usize, Refusal>
        ensures { Effect H.Heap S.TypeMatcherAlloc C.TyCustom self.old (make_type (tuple_of item)) (type_told result) self.new }
    {
        self.types.tuple_of(item)
    }

    // The type `dict[key, value]`.
    pub fn dict(&mut self, key: usize, value: usize) -> Result<usize, Refusal>
        ensures { Effect H.Heap S.TypeMatcherAlloc C.TyCustom self.old (make_type (dict key value)) (type_told result) self.new }
    {
        self.types.dict(key, value)
    }

    // The type of the values that this custom accepts.
    pub fn custom(&mut self, number: u16) -> Result<usize, Refusal>
        ensures { Effect H.Heap S.TypeMatcherAlloc C.TyCustom self.old (make_type (custom number)) (type_told result) self.new }
    {
        self.types.custom(number)
    }

    // The type `set[item]`.
    pub fn set(&mut self, item: usize) -> Result<usize, Refusal>
        ensures { Effect H.Heap S.TypeMatcherAlloc C.TyCustom self.old (make_type (set_of item)) (type_told result) self.new }
    {
        self.types.set(item)
    }

    // Two types joined.
    pub fn union2(&mut self, a: usize, b: usize) -> Result<usize, Refusal>
        ensures { Effect H.Heap S.TypeMatcherAlloc C.TyCustom self.old (union_of a b) (type_told result) self.new }
    {
        self.types.union2(a, b)
    }
}
