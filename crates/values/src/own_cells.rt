ghost use Rattle.std.specs.Prelude.{◌≡◌, ◌≤◌, length, vec_len, vec_capacity};
ghost use Rattle.values.specs.Owned.{Laid, Shaped, total};

use crate::own::Own;

// At most 256 cells with at most 2048 parts in all; both vectors are reserved when the heap is made.
#[derive(Drop)]
pub(crate) struct OwnCells {
    pub(crate) rows: Vec<Own>,
    pub(crate) pool: Vec<usize>,
    ghost few: { vec_len rows ≤ 256 },
    ghost parts: { vec_len pool ≤ 2048 },
    ghost row_room: { 256 ≤ vec_capacity rows },
    ghost part_room: { 2048 ≤ vec_capacity pool },
    ghost laid: { Laid rows.items },
    ghost full: { length pool.items ≡ total rows.items },
    ghost shaped: { Shaped rows.items },
}
