// The own cells of a live heap, as they change.
ghost use Rattle.std.specs.Prelude.{◌≡◌, ℕ, ◌+◌, ◌<◌, ◌≤◌, true, [], ◌∷◌, ◌++◌, ◌&&◌, length, vec_len, vec_capacity, slice_set, nat_lt, nat_le, IfOk};
ghost use Rattle.values.specs.Cells.{cell_at, formed};
ghost use Rattle.values.specs.Held.{own_cells};
ghost use Rattle.values.specs.Owned.{Below};
ghost use Rattle.values.specs.Values.{numbers};
ghost use Rattle.values.specs.Lives.{cell, changed};

use crate::head::Head;
use crate::own::Own;
use crate::own_cells::OwnCells;
use crate::value::Value;
use std::alloc::{AllocError, Global};

const MOST_CELLS: usize = 256;

const MOST_PARTS: usize = 2048;

// All of `parts`, after what the pool has.
// `extend` doesn't promise to succeed in reserved room, so each part is pushed.
fn append(pool: &mut Vec<usize>, parts: &[Value])
    requires { vec_len pool.old + length parts.now ≤ vec_capacity pool.old }
    ensures items { pool.new.items ≡ pool.old.items ++ numbers parts.now }
    ensures len { vec_len pool.new ≡ vec_len pool.old + length parts.now }
    ensures cap { vec_capacity pool.new ≡ vec_capacity pool.old }
{
    for p in parts {
        pool.push_reserved(p.0);
    }
}

impl OwnCells {
    // No cells, and room for all that there may be.
    pub(crate) fn new(heap: Global) -> Result<OwnCells, AllocError>
        ensures { IfOk result (λ o. (o.rows.items ≡ []) × (o.pool.items ≡ [])) }
    {
        let rows = Vec::with_capacity(heap, MOST_CELLS)?;
        let pool = Vec::with_capacity(heap, MOST_PARTS)?;
        Ok(OwnCells { rows, pool })
    }

    // Whether a cell with so many parts has room.
    pub(crate) fn has_room(&self, count: usize) -> bool
        ensures { result ≡ (nat_lt (vec_len self.now.rows) 256 && nat_le (vec_len self.now.pool + count) 2048) }
    {
        self.rows.len() < MOST_CELLS && count <= MOST_PARTS - self.pool.len()
    }

    // One cell more.
    pub(crate) fn add(&mut self, head: Head, parts: &[Value])
        requires few { vec_len self.old.rows < 256 }
        requires room { vec_len self.old.pool + length parts.now ≤ 2048 }
        requires shaped { formed head.ty head.flags head.mark (length parts.now) ≡ true }
        ensures cells { own_cells self.new ≡ own_cells self.old ++ (cell head.ty head.flags head.mark (numbers parts.now) ∷ []) }
        ensures rows { vec_len self.new.rows ≡ vec_len self.old.rows + 1 }
        ensures pool { (n : ℕ) → Below n self.old.pool.items → Below n (numbers parts.now) → Below n self.new.pool.items }
    {
        let first = self.pool.len();
        append(&mut self.pool, parts);
        self.rows.push_reserved(Own {
            head,
            first,
            count: parts.len(),
        });
    }

    // Another part at the place i of the cell k.
    pub(crate) fn set_part(&mut self, k: usize, i: usize, x: usize)
        requires own { k < vec_len self.old.rows }
        requires place { i < length (cell_at (own_cells self.old) k).parts }
        ensures cells { own_cells self.new ≡ slice_set (own_cells self.old) k (changed (cell_at (own_cells self.old) k) i x) }
        ensures rows { vec_len self.new.rows ≡ vec_len self.old.rows }
        ensures pool { (n : ℕ) → x < n → Below n self.old.pool.items → Below n self.new.pool.items }
    {
        let at = self.rows[k].first + i;
        self.pool[at] = x;
    }
}
