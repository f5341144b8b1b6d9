// What a node asks of a value.
ghost use Rattle.std.specs.Prelude.{◌≡◌, ◌<◌, length};
ghost use Rattle.values.specs.Cells.{cell_at};
ghost use Rattle.matcher.specs.Nodes.{node_at_lem};
ghost use Rattle.matching.specs.Shapes.{shape_of, kid_by_lem, inside, kid_of, sub_of};
ghost use Rattle.matching.specs.Stacks.{Place};

use crate::asked::{Quantifier, Shape};
use crate::frames::Question;
use crate::setting::Setting;
use crate::subject::{CALLABLE, ITERABLE, Subject, TYPE};
use custom::ty_custom::TyCustom;
use matcher::alloc::TypeMatcherAlloc;
use matcher::kind::Kind;
use values::built_in::BuiltIn;
use values::heap::Heap;
use values::value::Value;

// Which kid is asked at the place i.
fn kid_by(kind: Kind, i: usize) -> usize
    ensures { result ≡ kid_by_lem kind i }
{
    match kind {
        Kind::IsDictOf => i % 2,
        Kind::IsTupleElems
        | Kind::IsTupleElems1
        | Kind::IsTupleElems2
        | Kind::IsAnyOfTwo
        | Kind::IsAnyOf => i,
        _ => 0,
    }
}

// Whether it is asked of the part i, or of the value itself.
fn is_inside(kind: Kind) -> bool
    ensures { result ≡ inside kind }
{
    matches!(
        kind,
        Kind::IsListOf
            | Kind::IsTupleOf
            | Kind::IsTupleElems
            | Kind::IsTupleElems1
            | Kind::IsTupleElems2
            | Kind::IsDictOf
            | Kind::IsSetOf
    )
}

impl<H: Heap, S: TypeMatcherAlloc, C: TyCustom> Setting<'_, H, S, C> {
    // The kid that a question asks at the place i, and the value of which it asks it.
    #[tactic(auto, unfolding(crate::specs::Shapes::kid_of, crate::specs::Shapes::sub_of))]
    #[inline]
    pub(crate) fn place(&self, q: &Question, i: usize) -> (usize, Value)
        requires node { q.now.node < length (S.nodes self.now.store.now) }
        requires kind { q.now.kind ≡ (node_at_lem (S.nodes self.now.store.now) q.now.node).kind }
        requires value { q.now.value.0 < length (H.cells self.now.heap.now) }
        requires place { Place (H.cells self.now.heap.now) (S.nodes self.now.store.now) q.now.node q.now.value.0 i }
        ensures kid { result.0 ≡ kid_of (S.nodes self.now.store.now) q.now.node i }
        ensures value { result.1.0 ≡ sub_of (H.cells self.now.heap.now) (S.nodes self.now.store.now) q.now.node q.now.value.0 i }
    {
        let kid = self.store.kid(q.node, kid_by(q.kind, i)).unwrap();
        if is_inside(q.kind) {
            (kid, self.heap.part(q.value, i).unwrap())
        } else {
            (kid, q.value)
        }
    }

    #[inline]
    pub(crate) fn shape(&self, q: Question) -> Shape
        requires node { q.node < length (S.nodes self.now.store.now) }
        requires value { q.value.0 < length (H.cells self.now.heap.now) }
        ensures { result ≡ shape_of q.kind (node_at_lem (S.nodes self.now.store.now) q.node) (cell_at (H.cells self.now.heap.now) q.value.0) (C.custom self.now.customs.now).says }
    {
        let Setting { heap, store, .. } = self;
        let n = q.node;
        let v = q.value;
        let it = Subject::new(*heap, v);
        match q.kind {
            Kind::IsAny => Shape::Given(true),
            Kind::IsNever => Shape::Given(false),
            Kind::IsStr => Shape::Given(heap.unpack_str(v).unwrap().is_some()),
            Kind::IsList => Shape::Given(it.is(BuiltIn::List)),
            Kind::IsListOf => it.every_part(BuiltIn::List),
            Kind::IsTupleOf => it.every_part(BuiltIn::Tuple),
            Kind::IsTupleElems => it.every_place(store.kids(n).unwrap()),
            Kind::IsTupleElems0 => Shape::Given(it.is_long(0)),
            Kind::IsTupleElems1 => it.every_place(1),
            Kind::IsTupleElems2 => it.every_place(2),
            Kind::IsDict => Shape::Given(it.is(BuiltIn::Dict)),
            Kind::IsDictOf => it.every_part(BuiltIn::Dict),
            Kind::IsSet => Shape::Given(it.is(BuiltIn::Set)),
            Kind::IsSetOf => it.every_part(BuiltIn::Set),
            Kind::IsAnyOfTwo => Shape::Asks(Quantifier::Either, 2),
            Kind::IsAnyOf => Shape::Asks(Quantifier::Either, store.kids(n).unwrap()),
            Kind::IsCallable => Shape::Given(it.has(CALLABLE)),
            Kind::IsType => Shape::Given(it.has(TYPE)),
            Kind::IsIterable => Shape::Given(it.has(ITERABLE)),
            Kind::IsInt => Shape::Given(heap.unpack_int(v).unwrap().is_some()),
            Kind::IsBool => Shape::Given(heap.unpack_bool(v).unwrap().is_some()),
            Kind::IsNone => Shape::Given(heap.is_none(v).unwrap()),
            Kind::StarlarkTypeIdMatcher => Shape::Given(it.head().ty == store.number(n).unwrap()),
            Kind::Custom => Shape::Given(self.customs.matches(store.number(n).unwrap(), it.head())),
        }
    }
}
