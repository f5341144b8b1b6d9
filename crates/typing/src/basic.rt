// The alternatives of a type and their order. The elements of fixed tuples stand in a pool.
ghost use Rattle.std.specs.Prelude.{◌≡◌, ℕ, ◌+◌, ◌<◌, ◌≤◌, true, List, [], ◌∷◌, ◌++◌, length, take, drop, vec_len, vec_capacity, MatchResult};
ghost use Rattle.std.specs.List.{between, slice_get};
ghost use Rattle.std.specs.Ordering.{nat_cmp};
ghost use Rattle.std.specs.Cmp.Lexicographic.{slice_cmp};
ghost use Rattle.membership.specs.Rows.{rank, parts, compared, same_alts, put, put_settled_lem, settle, inner, no_inner, with_part, each, is_any};
ghost use Rattle.membership.specs.Readings.{elems, plain_alt};
ghost use Rattle.typing.specs.View.{alt, alts, pooled, span, own_number, first_parts, second_parts, by_parts, inner_of};

use std::cmp::Ordering;
use std::slice;

// A tuple's elements: those of the pool from one place to another, or one type for every element.
// Rule: memory is reserved when a table is made, so the elements of all tuples lie in one pool.
#[derive(Clone, Copy)]
pub enum TyTuple {
    Elems(usize, usize),
    Of(usize),
}

// A type that is no union. Its parts are numbers of types.
#[derive(Clone, Copy)]
pub enum TyBasic {
    Any,
    StarlarkValue(u16),
    Iter(usize),
    Callable,
    Type,
    List(usize),
    Tuple(TyTuple),
    Dict(usize, usize),
    Custom(u16),
    Set(usize),
}

// The numbers of the pool from one place to another; none stand past its end.
fn stretch(pool: &[usize], from: usize, to: usize) -> &[usize]
    ensures { result.now ≡ between from to pool.now }
{
    let end = to.min(pool.len());
    &pool[from.min(end)..end]
}

// The order of two slices, number by number. The slices' own order is made for longer ones: most of these hold one number or none.
fn order(a: &[usize], b: &[usize]) -> Ordering
    ensures { result ≡ slice_cmp nat_cmp a.now b.now }
{
    a.iter().cmp(b.iter())
}

impl TyBasic {
    // The place of the kind in the order of kinds.
    pub(crate) fn rank(&self) -> usize
        ensures { (pool : List ℕ) → result ≡ rank (alt pool self.now) }
    {
        match self {
            TyBasic::Any => 0,
            TyBasic::StarlarkValue(_) => 1,
            TyBasic::Iter(_) => 2,
            TyBasic::Callable => 3,
            TyBasic::Type => 4,
            TyBasic::List(_) => 5,
            TyBasic::Tuple(TyTuple::Elems(_, _)) => 6,
            TyBasic::Tuple(TyTuple::Of(_)) => 7,
            TyBasic::Dict(_, _) => 8,
            TyBasic::Custom(_) => 9,
            TyBasic::Set(_) => 10,
        }
    }

    // The number of a plain type or of a custom, or 0.
    pub(crate) fn number(&self) -> u16
        ensures { (pool : List ℕ) → result ≡ own_number (alt pool self.now) }
    {
        match self {
            TyBasic::StarlarkValue(n) | TyBasic::Custom(n) => *n,
            _ => 0,
        }
    }

    // The numbers of the types that the alternative is made of. The key and the value of a dict don't stand side by side.
    pub(crate) fn parts<'a>(&'a self, pool: &'a [usize]) -> (&'a [usize], &'a [usize])
        ensures first { result.0.now ≡ first_parts (alt pool.now self.now) }
        ensures second { result.1.now ≡ second_parts (alt pool.now self.now) }
        ensures all { result.0.now ++ result.1.now ≡ parts (alt pool.now self.now) }
    {
        match self {
            TyBasic::Iter(t)
            | TyBasic::List(t)
            | TyBasic::Set(t)
            | TyBasic::Tuple(TyTuple::Of(t)) => (slice::from_ref(t), &[]),
            TyBasic::Tuple(TyTuple::Elems(from, to)) => (stretch(pool, *from, *to), &[]),
            TyBasic::Dict(k, v) => (slice::from_ref(k), slice::from_ref(v)),
            _ => (&[], &[]),
        }
    }

    // How many elements a fixed tuple has.
    pub(crate) fn elements(&self) -> usize
        ensures { result ≡ span self.now }
    {
        match self {
            TyBasic::Tuple(TyTuple::Elems(from, to)) => to.saturating_sub(*from),
            _ => 0,
        }
    }

    // The element `j` of a fixed tuple.
    pub(crate) fn element(&self, pool: &[usize], j: usize) -> Option<usize>
        ensures { result ≡ slice_get (elems (alt pool.now self.now)) j }
    {
        match self {
            TyBasic::Tuple(TyTuple::Elems(from, to)) => stretch(pool, *from, *to).get(j).copied(),
            _ => None,
        }
    }

    pub(crate) fn is_any(&self) -> bool
        ensures { (pool : List ℕ) → result ≡ is_any (alt pool self.now) }
    {
        matches!(self, TyBasic::Any)
    }

    // The type number of a plain type.
    pub(crate) fn plain_number(&self) -> Option<u16>
        ensures { (pool : List ℕ) → result ≡ plain_alt (alt pool self.now) }
    {
        match self {
            TyBasic::StarlarkValue(n) => Some(*n),
            _ => None,
        }
    }

    // The order of alternatives: the kind, then the numbers as slices are compared.
    pub(crate) fn compare(&self, other: &TyBasic, pool: &[usize]) -> Ordering
        ensures { result ≡ compared (alt pool.now self.now) (alt pool.now other.now) }
    {
        let by_kind = self.rank().cmp(&other.rank());
        if by_kind.is_ne() {
            return by_kind;
        }
        let by_number = self.number().cmp(&other.number());
        if by_number.is_ne() {
            return by_number;
        }
        self.compare_parts(other, pool)
    }

    // The order of the parts, as two pairs of slices are compared. Most alternatives differ before, so that it's left out of line.
    #[inline(never)]
    fn compare_parts(&self, other: &TyBasic, pool: &[usize]) -> Ordering
        ensures { result ≡ by_parts (alt pool.now self.now) (alt pool.now other.now) }
    {
        let (a, b) = self.parts(pool);
        let (c, d) = other.parts(pool);
        let by_first = order(a, c);
        if by_first.is_ne() {
            return by_first;
        }
        order(b, d)
    }
}

// The item of a list and the key and the value of a dict; never (0) where there is none.
#[derive(Clone, Copy)]
pub struct Inner {
    pub item: usize,
    pub key: usize,
    pub value: usize,
}

// Parts of neither a list nor a dict. Never is neutral in a join, so that no part needs to be an option.
const NONE: Inner = Inner {
    item: 0,
    key: 0,
    value: 0,
};

impl TyBasic {
    // A copy, with the joined item, key and value in place of its own.
    fn settled(&self, joined: Inner) -> TyBasic
        ensures is { (pool : List ℕ) → alt pool result ≡ settle (inner_of joined) (alt pool self.now) }
        ensures pooled { (n : ℕ) → pooled n self.now ≡ true → pooled n result ≡ true }
    {
        match self {
            TyBasic::List(_) => TyBasic::List(joined.item),
            TyBasic::Dict(_, _) => TyBasic::Dict(joined.key, joined.value),
            _ => *self,
        }
    }

    // `so_far` with what this alternative adds.
    fn added_to(&self, so_far: Inner) -> Inner
        ensures { (pool : List ℕ) → inner_of result ≡ with_part (inner_of so_far) (alt pool self.now) }
    {
        match self {
            TyBasic::List(t) => Inner {
                item: *t,
                key: so_far.key,
                value: so_far.value,
            },
            TyBasic::Dict(k, v) => Inner {
                item: so_far.item,
                key: *k,
                value: *v,
            },
            _ => so_far,
        }
    }
}

// Whether two types have the same alternatives.
pub(crate) fn same(a: &[TyBasic], b: &[TyBasic], pool: &[usize]) -> bool
    ensures { result ≡ same_alts (alts pool.now a.now) (alts pool.now b.now) }
{
    a.len() == b.len() && a.iter().zip(b).all(|(x, y)| x.compare(y, pool).is_eq())
}

// Where `x` stands in a kept order, or the place to put it, as a binary search answers.
fn place(row: &[TyBasic], x: &TyBasic, pool: &[usize]) -> Result<usize, usize>
    ensures { MatchResult result (λ _. put (alt pool.now x.now) (alts pool.now row.now) ≡ alts pool.now row.now) (λ i. (i ≤ length row.now) × (put (alt pool.now x.now) (alts pool.now row.now) ≡ alts pool.now (take i row.now) ++ alt pool.now x.now ∷ alts pool.now (drop i row.now))) }
{
    for (i, y) in row.iter().enumerate() {
        match x.compare(y, pool) {
            Ordering::Less => return Err(i),
            Ordering::Equal => return Ok(i),
            Ordering::Greater => {}
        }
    }
    Err(row.len())
}

// Puts an alternative into a kept order, once, where a place is reserved. The row is scratch memory and the pool the table's:
// a struct of both would be made anew at each call, so that they stay two parameters.
pub(crate) fn put_once(row: &mut Vec<TyBasic>, x: TyBasic, pool: &[usize])
    requires room { vec_len row.old < vec_capacity row.old }
    requires row { each (pooled (length pool.now)) row.old.items ≡ true }
    requires new { pooled (length pool.now) x ≡ true }
    ensures put { alts pool.now row.new.items ≡ put (alt pool.now x) (alts pool.now row.old.items) }
    ensures room { vec_len row.new ≤ vec_len row.old + 1 }
    ensures reserved { vec_capacity row.new ≡ vec_capacity row.old }
    ensures row { each (pooled (length pool.now)) row.new.items ≡ true }
{
    if let Err(i) = place(row.as_slice(), &x, pool) {
        let _ = row.insert(i, x);
    }
}

// The parts of the list and the dict of a type.
pub(crate) fn inner_parts(alternatives: &[TyBasic]) -> Inner
    ensures { (pool : List ℕ) → inner_of result ≡ inner no_inner (alts pool alternatives.now) }
{
    let mut found = NONE;
    for x in alternatives {
        found = x.added_to(found);
    }
    found
}

// Puts the alternatives of one side of a union into a row.
fn put_settled(row: &mut Vec<TyBasic>, side: &[TyBasic], joined: Inner, pool: &[usize])
    requires room { vec_len row.old + length side.now ≤ vec_capacity row.old }
    requires row { each (pooled (length pool.now)) row.old.items ≡ true }
    requires side { each (pooled (length pool.now)) side.now ≡ true }
    ensures put { alts pool.now row.new.items ≡ put_settled_lem (inner_of joined) (alts pool.now row.old.items) (alts pool.now side.now) }
    ensures room { vec_len row.new ≤ vec_len row.old + length side.now }
    ensures reserved { vec_capacity row.new ≡ vec_capacity row.old }
    ensures row { each (pooled (length pool.now)) row.new.items ≡ true }
{
    for x in side {
        put_once(row, x.settled(joined), pool);
    }
}

// The alternatives of a union of two sides, into a row that has places for all of them.
pub(crate) fn unite(
    row: &mut Vec<TyBasic>,
    left: &[TyBasic],
    right: &[TyBasic],
    joined: Inner,
    pool: &[usize],
)
    requires room { length left.now + length right.now ≤ vec_capacity row.old }
    requires left { each (pooled (length pool.now)) left.now ≡ true }
    requires right { each (pooled (length pool.now)) right.now ≡ true }
    ensures put { alts pool.now row.new.items ≡ put_settled_lem (inner_of joined) (put_settled_lem (inner_of joined) [] (alts pool.now left.now)) (alts pool.now right.now) }
    ensures room { vec_len row.new ≤ length left.now + length right.now }
    ensures reserved { vec_capacity row.new ≡ vec_capacity row.old }
    ensures row { each (pooled (length pool.now)) row.new.items ≡ true }
{
    row.clear();
    put_settled(row, left, joined, pool);
    put_settled(row, right, joined, pool);
}
