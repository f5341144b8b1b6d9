// Fixed tuples: their elements stand in the pool.
ghost use Rattle.std.specs.Prelude.{◌≡◌, ℕ, ◌+◌, ◌<◌, ◌≤◌, true, ◌++◌, length, vec_len, vec_capacity};
ghost use Rattle.values.specs.Refusals.{number};
ghost use Rattle.membership.specs.Rows.{single, tuple, refused, Sound};
ghost use Rattle.typing.specs.View.{alt, pooled};
ghost use Rattle.typing.specs.Held.{table_of, pool_in};

use crate::basic::{TyBasic, TyTuple};
use crate::limits::MAX_DEPTH;
use crate::types::Rows;
use values::refusal::Refusal;

impl Rows {
    // Adds elements to the pool, where places are reserved, and says where they stand.
    pub(crate) fn add_elements(&mut self, elements: &[usize]) -> TyTuple
        requires { vec_len self.old.pool + length elements.now ≤ vec_capacity self.old.pool }
        ensures items { pool_in self.new ≡ pool_in self.old ++ elements.now }
        ensures room { vec_capacity self.old.pool ≤ vec_capacity self.new.pool }
        ensures all { self.new.all ≡ self.old.all }
        ensures rows { self.new.rows ≡ self.old.rows }
        ensures whole { alt (pool_in self.new) (TyBasic.Tuple result) ≡ tuple elements.now }
        ensures pooled { pooled (length (pool_in self.new)) (TyBasic.Tuple result) ≡ true }
    {
        let from = self.pool.len();
        let _ = self.pool.extend_from_slice(elements);
        TyTuple::Elems(from, self.pool.len())
    }

    // Why a tuple of more elements than a tuple may have is refused.
    pub(crate) fn long_tuple(&self, elements: &[usize]) -> Refusal
        requires { 64 < length elements.now }
        ensures { Sound (table_of self.now) → single (table_of self.now) (tuple elements.now) ≡ refused (number result) }
    {
        if !self.all_stand(elements) {
            return Refusal::NoType;
        }
        if self.size_of_parts(elements, &[]).depth > MAX_DEPTH {
            return Refusal::TooDeep;
        }
        Refusal::TooWide
    }
}
