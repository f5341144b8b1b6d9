// What a task is expanded to: the kids' tasks, and the step that joins them. Named as starlark's own functions.
ghost use Rattle.std.specs.Prelude.{◌≡◌, ℕ, ◌<◌, List, length};
ghost use Rattle.membership.specs.Rows.{row};
ghost use Rattle.membership.specs.Readings.{alt_at, elems, plain_of};
ghost use Rattle.typing.specs.View.{alt};
ghost use Rattle.compiling.specs.Written.{is_none};
ghost use Rattle.typing.specs.Held.{rows_of};
ghost use Rattle.compiling.specs.Code.{leaf, type_id, value_op, item_op, beside_none_op, custom_op};
ghost use Rattle.compiling.specs.Tasks.{expand, expand_union, expand_two, expand_none_or, expand_basic, expand_over, expand_dict, elems_by, expand_pair, expand_alternatives, expand_elements, part_task, Fine};
ghost use Rattle.matcher.specs.declared.kind.Kind.TheVariants.{IsList, IsSet, IsTupleOf};
ghost use Rattle.compiling.specs.declared.tasks.Op.{Op};
ghost use Rattle.compiling.specs.declared.tasks.Op.TheVariants.{Write, ListOf, SetOf};
ghost use Rattle.compiling.specs.declared.tasks.Task.TheVariants.{Step};
ghost use Rattle.compiling.specs.declared.tasks.Expansion.TheVariants.{One};

use crate::compiler::Compiler;
use compiling::tasks::{Expansion, Op, Task};
use custom::ty_custom::TyCustom;
use matcher::kind::Kind;
use typing::basic::{TyBasic, TyTuple};
use typing::types::Types;
use values::built_in::BuiltIn;

fn leaf(kind: Kind) -> Op
    ensures { result ≡ leaf kind }
{
    Op::Write(kind, 0, 0)
}

// A plain type by its number.
fn type_id(ty: u16) -> Op
    ensures { result ≡ type_id ty }
{
    Op::Write(Kind::StarlarkTypeIdMatcher, ty, 0)
}

// One step.
fn one(op: Op) -> Expansion
    ensures { result ≡ One (Step op) }
{
    Expansion::One(Task::Step(op))
}

// A plain type by itself.
fn starlark_value(ty: u16) -> Op
    ensures { result ≡ value_op ty }
{
    match BuiltIn::try_from(ty) {
        Ok(BuiltIn::Int) => leaf(Kind::IsInt),
        Ok(BuiltIn::Bool) => leaf(Kind::IsBool),
        Ok(BuiltIn::NoneType) => leaf(Kind::IsNone),
        Ok(BuiltIn::Str) => leaf(Kind::IsStr),
        _ => type_id(ty),
    }
}

// A plain type as an item or a key.
fn item_starlark_value(ty: u16) -> Op
    ensures { result ≡ item_op ty }
{
    match BuiltIn::try_from(ty) {
        Ok(BuiltIn::Str) => leaf(Kind::IsStr),
        _ => type_id(ty),
    }
}

// A plain type beside None.
fn none_or_starlark_value(ty: u16) -> Op
    ensures { result ≡ beside_none_op ty }
{
    match BuiltIn::try_from(ty) {
        Ok(BuiltIn::Int) => leaf(Kind::IsInt),
        Ok(BuiltIn::Str) => leaf(Kind::IsStr),
        _ => type_id(ty),
    }
}

// A part: its plain type, or the general matcher.
fn part<F: FnOnce(u16) -> Op>(types: &Types, t: usize, plain: F) -> Task
    ghost op: { ℕ → Op }
    requires callable { F.IsAlwaysCallable plain }
    requires plain { (n : ℕ) (o : Op) → F.post plain n o → o ≡ op n }
    ensures { result ≡ part_task op t (plain_of (row (rows_of types.now) t).alts) }
{
    let Some(ty) = types.is_starlark_value(t) else {
        return Task::Ty(t);
    };
    Task::Step(plain(ty))
}

// A type over one part: one step where the part is anything.
fn over<F: FnOnce(u16) -> Op>(types: &Types, whole: Op, join: Op, t: usize, plain: F) -> Expansion
    ghost op: { ℕ → Op }
    requires callable { F.IsAlwaysCallable plain }
    requires plain { (n : ℕ) (o : Op) → F.post plain n o → o ≡ op n }
    ensures { result ≡ expand_over whole join op (rows_of types.now) t }
{
    if types.is_any(t) {
        one(whole)
    } else {
        Expansion::Two(Task::Step(join), part(types, t, plain))
    }
}

fn list_of(types: &Types, item: usize) -> Expansion
    ensures { result ≡ expand_over (leaf IsList) ListOf item_op (rows_of types.now) item }
{
    let whole = leaf(Kind::IsList);
    over(types, whole, Op::ListOf, item, item_starlark_value)
}

fn set_of(types: &Types, item: usize) -> Expansion
    ensures { result ≡ expand_over (leaf IsSet) SetOf item_op (rows_of types.now) item }
{
    let whole = leaf(Kind::IsSet);
    over(types, whole, Op::SetOf, item, item_starlark_value)
}

fn dict_of(types: &Types, k: usize, v: usize) -> Expansion
    ensures { result ≡ expand_dict (rows_of types.now) k v }
{
    if types.is_any(k) && types.is_any(v) {
        one(leaf(Kind::IsDict))
    } else {
        let join = Task::Step(Op::DictOf);
        Expansion::Three(join, Task::Ty(v), part(types, k, item_starlark_value))
    }
}

fn tuple_of(types: &Types, item: usize) -> Expansion
    ensures { result ≡ expand_over (type_id 8) (Write IsTupleOf 0 1) type_id (rows_of types.now) item }
{
    let join = Op::Write(Kind::IsTupleOf, 0, 1);
    over(types, type_id(BuiltIn::Tuple.into()), join, item, type_id)
}

// Two elements: both plain types, or the general matcher for both.
fn tuple_elems2(types: &Types, x: usize, y: usize) -> Expansion
    ensures { result ≡ expand_pair x y (plain_of (row (rows_of types.now) x).alts) (plain_of (row (rows_of types.now) y).alts) }
{
    let join = Task::Step(Op::Write(Kind::IsTupleElems2, 0, 2));
    let general = Expansion::Three(join, Task::Ty(y), Task::Ty(x));
    let Some(a) = types.is_starlark_value(x) else {
        return general;
    };
    let Some(b) = types.is_starlark_value(y) else {
        return general;
    };
    Expansion::Three(join, Task::Step(type_id(b)), Task::Step(type_id(a)))
}

fn tuple_elems(types: &Types, t: usize, i: usize, count: usize) -> Expansion
    requires { count ≡ length (elems (alt_at (rows_of types.now) t i)) }
    ensures { result ≡ elems_by (rows_of types.now) t i (elems (alt_at (rows_of types.now) t i)) count }
{
    match count {
        0 => one(leaf(Kind::IsTupleElems0)),
        1 => Expansion::Two(
            Task::Step(Op::Write(Kind::IsTupleElems1, 0, 1)),
            Task::Ty(types.element(t, i, 0).unwrap()),
        ),
        2 => tuple_elems2(
            types,
            types.element(t, i, 0).unwrap(),
            types.element(t, i, 1).unwrap(),
        ),
        _ => Expansion::Two(
            Task::Step(Op::Write(Kind::IsTupleElems, 0, count)),
            Task::Elements(t, i, 0),
        ),
    }
}

fn custom_matcher<C: TyCustom>(customs: &C, number: u16) -> Op
    ensures { result ≡ custom_op (C.custom customs.now).wild number }
{
    if customs.is_wildcard(number) {
        leaf(Kind::IsAny)
    } else {
        Op::Write(Kind::Custom, number, 0)
    }
}

impl<C: TyCustom> Compiler<'_, C> {
    fn ty_basic(&self, t: usize, i: usize) -> Expansion
        requires { i < length (row (rows_of self.now.types.now) t).alts }
        ensures { result ≡ expand_basic (rows_of self.now.types.now) (C.custom self.now.customs.now).wild t i (alt_at (rows_of self.now.types.now) t i) }
    {
        match self.types.basic(t, i).unwrap() {
            TyBasic::Any => one(leaf(Kind::IsAny)),
            TyBasic::StarlarkValue(ty) => one(starlark_value(ty)),
            TyBasic::Iter(_) => one(leaf(Kind::IsIterable)),
            TyBasic::Callable => one(leaf(Kind::IsCallable)),
            TyBasic::Type => one(leaf(Kind::IsType)),
            TyBasic::List(item) => list_of(self.types, item),
            TyBasic::Tuple(TyTuple::Elems(from, to)) => tuple_elems(self.types, t, i, to - from),
            TyBasic::Tuple(TyTuple::Of(item)) => tuple_of(self.types, item),
            TyBasic::Dict(k, v) => dict_of(self.types, k, v),
            TyBasic::Custom(number) => one(custom_matcher(self.customs, number)),
            TyBasic::Set(item) => set_of(self.types, item),
        }
    }
}

fn is_none(ty: TyBasic) -> bool
    ensures { (pool : List ℕ) → result ≡ is_none (alt pool ty) }
{
    matches!(ty, TyBasic::StarlarkValue(n) if n == BuiltIn::NoneType.into())
}

// `A | None`.
fn none_or_basic(t: usize, i: usize, ty: TyBasic) -> Expansion
    ensures { (pool : List ℕ) → result ≡ expand_none_or t i (alt pool ty) }
{
    let beside = match ty {
        TyBasic::StarlarkValue(ty) => Task::Step(none_or_starlark_value(ty)),
        _ => Task::Basic(t, i),
    };
    Expansion::Three(
        Task::Step(Op::Write(Kind::IsAnyOfTwo, 0, 2)),
        beside,
        Task::Step(leaf(Kind::IsNone)),
    )
}

// `A | B`.
fn any_of_two_basic(t: usize, a: TyBasic, b: TyBasic) -> Expansion
    ensures { (pool : List ℕ) → result ≡ expand_two t (alt pool a) (alt pool b) }
{
    if is_none(a) {
        none_or_basic(t, 1, b)
    } else if is_none(b) {
        none_or_basic(t, 0, a)
    } else {
        let join = Task::Step(Op::AnyOfTwo);
        Expansion::Three(join, Task::Basic(t, 1), Task::Basic(t, 0))
    }
}

// A union of so many alternatives.
fn union_matcher(types: &Types, t: usize, count: usize) -> Expansion
    requires { count ≡ length (row (rows_of types.now) t).alts }
    ensures { result ≡ expand_union (rows_of types.now) t count }
{
    match count {
        0 => one(leaf(Kind::IsNever)),
        1 => Expansion::One(Task::Basic(t, 0)),
        2 => any_of_two_basic(t, types.basic(t, 0).unwrap(), types.basic(t, 1).unwrap()),
        _ => Expansion::Two(Task::Step(Op::AnyOf(count)), Task::Alternatives(t, 0)),
    }
}

fn ty(types: &Types, t: usize) -> Expansion
    requires { t < length (rows_of types.now) }
    ensures { result ≡ expand_union (rows_of types.now) t (length (row (rows_of types.now) t).alts) }
{
    union_matcher(types, t, types.width(t).unwrap())
}

fn alternatives(types: &Types, t: usize, i: usize) -> Expansion
    requires { t < length (rows_of types.now) }
    ensures { result ≡ expand_alternatives (rows_of types.now) t i }
{
    if i < types.width(t).unwrap() {
        Expansion::Two(Task::Alternatives(t, i + 1), Task::Basic(t, i))
    } else {
        Expansion::Zero
    }
}

fn elements_from(types: &Types, t: usize, i: usize, j: usize) -> Expansion
    requires stands { t < length (rows_of types.now) }
    requires within { i < length (row (rows_of types.now) t).alts }
    ensures { result ≡ expand_elements (rows_of types.now) t i j }
{
    let Some(element) = types.element(t, i, j) else {
        return Expansion::Zero;
    };
    Expansion::Two(Task::Elements(t, i, j + 1), Task::Ty(element))
}

impl<C: TyCustom> Compiler<'_, C> {
    #[tactic(auto, unfolding(compiling::specs::Tasks::expand))]
    pub(crate) fn expanded(&self, task: Task) -> Expansion
        requires { Fine (rows_of self.now.types.now) task }
        ensures { result ≡ expand (rows_of self.now.types.now) (C.custom self.now.customs.now).wild task }
    {
        match task {
            Task::Ty(t) => ty(self.types, t),
            Task::Basic(t, i) => self.ty_basic(t, i),
            Task::Alternatives(t, i) => alternatives(self.types, t, i),
            Task::Elements(t, i, j) => elements_from(self.types, t, i, j),
            Task::Step(_) => Expansion::Zero,
        }
    }
}
