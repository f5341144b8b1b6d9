// The rows of a table of types, in memory that is reserved when the table is made.
ghost use Rattle.std.specs.Prelude.{◌≡◌, ℕ, ◌+◌, ◌<◌, ◌≤◌, min, true, [], ◌∷◌, ◌++◌, length, vec_len, vec_capacity};
ghost use Rattle.std.specs.List.{between};
ghost use Rattle.membership.specs.Rows.{row, find, intern, grown, parts, below, deepest, total, made_row, each, Kept, Joined};
ghost use Rattle.typing.specs.Rooms.{Room, Taken};
ghost use Rattle.typing.specs.View.{alt, alts, row_of, pooled};
ghost use Rattle.typing.specs.Held.{table_of, pool_in};
ghost use Rattle.typing.specs.Growing.{Grew, held};

use crate::basic::{Inner, TyBasic, inner_parts, same, unite};
use crate::limits::{HELD_DEPTH, HELD_WEIGHT};
use crate::types::Rows;

// A type: where its alternatives stand, its depth and its weight.
// Rule: memory is reserved when a table is made, so the alternatives of all types lie in one Vec.
#[derive(Clone, Copy)]
pub struct Row {
    pub start: usize,
    pub end: usize,
    pub depth: usize,
    pub weight: usize,
}

// The row of never.
pub(crate) const NEVER: Row = Row {
    start: 0,
    end: 0,
    depth: 1,
    weight: 1,
};

// A depth and a weight, each held just past its limit.
#[derive(Clone, Copy)]
pub struct Size {
    pub depth: usize,
    pub weight: usize,
}

// A sum, held at `limit`.
pub(crate) fn held_sum(limit: usize, a: usize, b: usize) -> usize
    ensures { result ≡ min limit (a + b) }
{
    a.saturating_add(b).min(limit)
}

// Adds alternatives where places are reserved. The library's extend_from_slice doesn't promise that the memory stays as it is.
fn append(all: &mut Vec<TyBasic>, new: &[TyBasic])
    requires { vec_len all.old + length new.now ≤ vec_capacity all.old }
    ensures items { all.new.items ≡ all.old.items ++ new.now }
    ensures reserved { vec_capacity all.new ≡ vec_capacity all.old }
{
    for x in new {
        all.push_reserved(*x);
    }
}

impl Rows {
    // How many types there are.
    pub(crate) fn count(&self) -> usize
        ensures { result ≡ length (table_of self.now) }
    {
        self.rows.len()
    }

    // The row of the type `t`; a missing type counts as never.
    pub(crate) fn row(&self, t: usize) -> Row
        ensures is { row_of (pool_in self.now) self.now.all.items result ≡ row (table_of self.now) t }
        ensures depth { result.depth ≡ (row (table_of self.now) t).deep }
        ensures weight { result.weight ≡ (row (table_of self.now) t).heavy }
    {
        self.rows.as_slice().get(t).copied().unwrap_or(NEVER)
    }

    // The alternatives of the type `t`.
    pub(crate) fn alternatives(&self, t: usize) -> &[TyBasic]
        ensures are { alts (pool_in self.now) result.now ≡ (row (table_of self.now) t).alts }
        ensures pooled { each (pooled (length (pool_in self.now))) result.now ≡ true }
    {
        match self.rows.as_slice().get(t) {
            Some(row) => &self.all[row.start..row.end],
            None => &[],
        }
    }

    // The number of the type with these alternatives.
    fn find(&self, new: &[TyBasic]) -> Option<usize>
        ensures { result ≡ find 0 (table_of self.now) (alts (pool_in self.now) new.now) }
    {
        (0..self.count()).find(|t| same(self.alternatives(*t), new, self.pool.as_slice()))
    }

    // The depth of the deepest of these types.
    fn deepest(&self, parts: &[usize]) -> usize
        ensures { result ≡ deepest (table_of self.now) parts.now }
    {
        parts
            .iter()
            .fold(0, |depth, p| depth.max(self.row(*p).depth))
    }

    // What these types weigh together, held just past the limit.
    fn total(&self, parts: &[usize]) -> usize
        ensures { result ≡ min 4097 (total (table_of self.now) parts.now) }
    {
        parts.iter().fold(
            0,
            |weight, p| held_sum(HELD_WEIGHT, weight, self.row(*p).weight),
        )
    }

    // The size of an alternative of these parts: 1 deeper than the deepest, and as heavy as all of them and 1.
    pub(crate) fn size_of_parts(&self, first: &[usize], second: &[usize]) -> Size
        ensures depth { result.depth ≡ min 33 (1 + deepest (table_of self.now) (first.now ++ second.now)) }
        ensures weight { result.weight ≡ min 4097 (1 + total (table_of self.now) (first.now ++ second.now)) }
    {
        let depth = self.deepest(first).max(self.deepest(second));
        let weight = held_sum(HELD_WEIGHT, self.total(first), self.total(second));
        Size {
            depth: held_sum(HELD_DEPTH, 1, depth),
            weight: held_sum(HELD_WEIGHT, 1, weight),
        }
    }

    // The size of the type with these alternatives.
    fn size(&self, new: &[TyBasic]) -> Size
        ensures depth { result.depth ≡ (made_row (table_of self.now) (alts (pool_in self.now) new.now)).deep }
        ensures weight { result.weight ≡ (made_row (table_of self.now) (alts (pool_in self.now) new.now)).heavy }
    {
        let mut depth: usize = 1;
        let mut weight: usize = 0;
        for x in new {
            let (first, second) = x.parts(self.pool.as_slice());
            let size = self.size_of_parts(first, second);
            depth = depth.max(size.depth);
            weight = held_sum(HELD_WEIGHT, weight, size.weight);
        }
        if new.len() == 1 {
            return Size { depth, weight };
        }
        Size {
            depth,
            weight: held_sum(HELD_WEIGHT, weight, 1),
        }
    }

    // The number of the type with these alternatives, added last where no row has them.
    pub(crate) fn intern(&mut self, new: &[TyBasic]) -> usize
        requires new { each (pooled (length (pool_in self.old))) new.now ≡ true }
        requires rows_room { vec_len self.old.rows < vec_capacity self.old.rows }
        requires all_room { vec_len self.old.all + length new.now ≤ vec_capacity self.old.all }
        ensures grew { Grew self.old self.new }
        ensures grows { grown (table_of self.new) result ≡ intern (table_of self.old) (alts (pool_in self.old) new.now) }
        ensures rows_room { (vec_len self.new.rows ≤ vec_len self.old.rows + 1) × (vec_capacity self.new.rows ≡ vec_capacity self.old.rows) }
        ensures all_room { (vec_len self.new.all ≤ vec_len self.old.all + length new.now) × (vec_capacity self.new.all ≡ vec_capacity self.old.all) }
    {
        if let Some(n) = self.find(new) {
            return n;
        }
        let size = self.size(new);
        let n = self.rows.len();
        let start = self.all.len();
        append(&mut self.all, new);
        let end = self.all.len();
        self.rows.push_reserved(Row {
            start,
            end,
            depth: size.depth,
            weight: size.weight,
        });
        n
    }

    // Two types joined, with no limit: the number of the union. Its places are reserved, so that it can't fail.
    pub(crate) fn join(&mut self, scratch: &mut Vec<TyBasic>, a: usize, b: usize) -> usize
        requires kept { Kept (table_of self.old) }
        requires a_within { a < length (table_of self.old) }
        requires b_within { b < length (table_of self.old) }
        requires room { Room (table_of self.old) a b (held self.old scratch.old) }
        ensures grew { Grew self.old self.new }
        ensures joins { Joined (table_of self.old) (table_of self.new) a b result }
        ensures taken { Taken (table_of self.old) a b (held self.old scratch.old) (held self.new scratch.new) }
    {
        if a == 1 || b == 1 {
            return 1;
        }
        if a == b || b == 0 {
            return a;
        }
        if a == 0 {
            return b;
        }
        let x = inner_parts(self.alternatives(a));
        let y = inner_parts(self.alternatives(b));
        let item = self.join(scratch, x.item, y.item);
        let key = self.join(scratch, x.key, y.key);
        let value = self.join(scratch, x.value, y.value);
        let joined = Inner { item, key, value };
        unite(
            scratch,
            self.alternatives(a),
            self.alternatives(b),
            joined,
            self.pool.as_slice(),
        );
        self.intern(scratch.as_slice())
    }
}
