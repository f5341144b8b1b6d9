// The calls that make a table of types and its types.
ghost use Rattle.std.specs.Prelude.{◌≡◌, true, length, IfOk};
ghost use Rattle.membership.specs.Rows.{start, plainly, single, plain_type, union2, iter, callable, kind, list, tuple, tuple_of, dict, custom, set_of};
ghost use Rattle.typing.specs.View.{alt, pooled};
ghost use Rattle.typing.specs.Outcomes.{Answered, MembersOf};
ghost use Rattle.typing.specs.Held.{rows_of, pool_of};

use crate::basic::{TyBasic, TyTuple};
use crate::limits::{MAX_PLACES, MAX_TYPES, MAX_WEIGHT, MAX_WIDTH};
use crate::rows::{NEVER, Row};
use crate::types::{Rows, Types};
use std::alloc::{AllocError, Global};
use values::built_in::is_type_number;
use values::refusal::Refusal;

// Places for the types of a full table, and for what one call may add to them before it is judged.
const ROWS_ROOM: usize = MAX_TYPES + MAX_WEIGHT;

const ALL_ROOM: usize = MAX_PLACES + 2 * MAX_WEIGHT;

const SCRATCH_ROOM: usize = 2 * MAX_WEIGHT;

const POOL_ROOM: usize = MAX_PLACES + MAX_WIDTH;

impl Types {
    // The table of never and any, with all its memory; only this call can fail for want of memory.
    pub fn new(heap: Global) -> Result<Types, AllocError>
        ensures { IfOk result (λ s. rows_of s ≡ start) }
    {
        let mut rows = Vec::with_capacity(heap, ROWS_ROOM)?;
        let mut all = Vec::with_capacity(heap, ALL_ROOM)?;
        let pool = Vec::with_capacity(heap, POOL_ROOM)?;
        let scratch = Vec::with_capacity(heap, SCRATCH_ROOM)?;
        all.push_reserved(TyBasic::Any);
        rows.push_reserved(NEVER);
        rows.push_reserved(Row {
            start: 0,
            end: 1,
            depth: 1,
            weight: 1,
        });
        Ok(Types {
            rows: Rows { rows, all, pool },
            scratch,
        })
    }

    // The type with one alternative.
    fn single(&mut self, x: TyBasic) -> Result<usize, Refusal>
        requires pooled { pooled (length (pool_of self.old)) x ≡ true }
        requires plainly { plainly (alt (pool_of self.old) x) ≡ true }
        ensures { Answered (single (rows_of self.old) (alt (pool_of self.old) x)) (rows_of self.old) (rows_of self.new) result }
    {
        self.rows.single(&mut self.scratch, x)
    }

    // The type of the values with this type number.
    pub fn starlark_value(&mut self, number: u16) -> Result<usize, Refusal>
        ensures { Answered (plain_type (rows_of self.old) number) (rows_of self.old) (rows_of self.new) result }
    {
        if !is_type_number(number) {
            return Err(Refusal::BadForm);
        }
        self.single(TyBasic::StarlarkValue(number))
    }

    // The type of what can be iterated over.
    pub fn iter(&mut self, item: usize) -> Result<usize, Refusal>
        ensures { Answered (single (rows_of self.old) (iter item)) (rows_of self.old) (rows_of self.new) result }
    {
        self.single(TyBasic::Iter(item))
    }

    // The type of what can be called.
    pub fn callable(&mut self) -> Result<usize, Refusal>
        ensures { Answered (single (rows_of self.old) callable) (rows_of self.old) (rows_of self.new) result }
    {
        self.single(TyBasic::Callable)
    }

    // The type of what stands for a type.
    pub fn type_of_types(&mut self) -> Result<usize, Refusal>
        ensures { Answered (single (rows_of self.old) kind) (rows_of self.old) (rows_of self.new) result }
    {
        self.single(TyBasic::Type)
    }

    // The type `list[item]`.
    pub fn list(&mut self, item: usize) -> Result<usize, Refusal>
        ensures { Answered (single (rows_of self.old) (list item)) (rows_of self.old) (rows_of self.new) result }
    {
        self.single(TyBasic::List(item))
    }

    // The type `tuple[..]` of these elements.
    pub fn tuple(&mut self, elements: &[usize]) -> Result<usize, Refusal>
        ensures { Answered (single (rows_of self.old) (tuple elements.now)) (rows_of self.old) (rows_of self.new) result }
    {
        if elements.len() > MAX_WIDTH {
            return Err(self.rows.long_tuple(elements));
        }
        let count = self.rows.count();
        let from = self.rows.pool.len();
        let whole = self.rows.add_elements(elements);
        let answer = self.rows.single(&mut self.scratch, TyBasic::Tuple(whole));
        // The pool keeps the elements only where a type is added.
        if self.rows.count() == count {
            self.rows.pool.truncate(from);
        }
        answer
    }

    // The type `tuple[item, ...]`.
    pub fn tuple_of(&mut self, item: usize) -> Result<usize, Refusal>
        ensures { Answered (single (rows_of self.old) (tuple_of item)) (rows_of self.old) (rows_of self.new) result }
    {
        self.single(TyBasic::Tuple(TyTuple::Of(item)))
    }

    // The type `dict[key, value]`.
    pub fn dict(&mut self, key: usize, value: usize) -> Result<usize, Refusal>
        ensures { Answered (single (rows_of self.old) (dict key value)) (rows_of self.old) (rows_of self.new) result }
    {
        self.single(TyBasic::Dict(key, value))
    }

    // The type of the values that this custom accepts.
    pub fn custom(&mut self, number: u16) -> Result<usize, Refusal>
        ensures { Answered (single (rows_of self.old) (custom number)) (rows_of self.old) (rows_of self.new) result }
    {
        self.single(TyBasic::Custom(number))
    }

    // The type `set[item]`.
    pub fn set(&mut self, item: usize) -> Result<usize, Refusal>
        ensures { Answered (single (rows_of self.old) (set_of item)) (rows_of self.old) (rows_of self.new) result }
    {
        self.single(TyBasic::Set(item))
    }

    // Two types joined. The union has the members of both, and no others unless both sides hold a list or both a dict.
    pub fn union2(&mut self, a: usize, b: usize) -> Result<usize, Refusal>
        ensures answers { Answered (union2 (rows_of self.old) a b) (rows_of self.old) (rows_of self.new) result }
        ensures members { MembersOf (rows_of self.old) (rows_of self.new) a b result }
    {
        let stood = self.rows.count();
        let filled = self.rows.all.len();
        if a >= stood || b >= stood {
            return Err(Refusal::NoType);
        }
        let n = self.rows.join(&mut self.scratch, a, b);
        self.rows.judge(stood, filled)?;
        Ok(n)
    }
}
