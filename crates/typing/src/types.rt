// A table of types: equal types have equal numbers, never is 0 and any is 1.
ghost use Rattle.std.specs.Prelude.{◌≡◌, ◌+◌, ◌≤◌, true, length, vec_capacity};
ghost use Rattle.membership.specs.Rows.{each, formed, sized, numbered, begins, stands, verdict, all_places};
ghost use Rattle.typing.specs.View.{table, pooled, placed};
ghost use Rattle.typing.specs.Making.{rows_room, all_room, scratch_room, pool_room};

use crate::basic::TyBasic;
use crate::rows::Row;

// The rows, the alternatives of all rows, and the elements of fixed tuples.
#[derive(Drop)]
pub struct Rows {
    pub(crate) rows: Vec<Row>,
    pub(crate) all: Vec<TyBasic>,
    pub(crate) pool: Vec<usize>,
    ghost elements: { each (pooled (length pool.items)) all.items ≡ true },
    ghost alternatives: { each (placed (length all.items)) rows.items ≡ true },
}

// The rows, within the limits, and the alternatives of a type that is being made.
#[derive(Drop)]
pub struct Types {
    pub(crate) rows: Rows,
    pub(crate) scratch: Vec<TyBasic>,
    ghost standing: { stands 0 (table rows.pool.items rows.all.items rows.rows.items) ≡ true },
    ghost forms: { each (λ r. formed r.alts) (table rows.pool.items rows.all.items rows.rows.items) ≡ true },
    ghost sizes: { each (sized (table rows.pool.items rows.all.items rows.rows.items)) (table rows.pool.items rows.all.items rows.rows.items) ≡ true },
    ghost unique: { numbered (table rows.pool.items rows.all.items rows.rows.items) 0 (table rows.pool.items rows.all.items rows.rows.items) ≡ true },
    ghost begun: { begins (table rows.pool.items rows.all.items rows.rows.items) ≡ true },
    ghost limited: { verdict (table rows.pool.items rows.all.items rows.rows.items) ≡ 0 },
    ghost packed: { length rows.pool.items + length rows.all.items ≤ all_places (table rows.pool.items rows.all.items rows.rows.items) },
    ghost forrows: { rows_room ≤ vec_capacity rows.rows },
    ghost forall: { all_room ≤ vec_capacity rows.all },
    ghost forscratch: { scratch_room ≤ vec_capacity scratch },
    ghost forpool: { pool_room ≤ vec_capacity rows.pool },
}
