ghost use Rattle.std.specs.Prelude.{◌≡◌, ◌+◌, ◌≤◌, true, vec_len, vec_capacity};
ghost use Rattle.matcher.specs.Tables.{nodes_of, spans, Deep};
ghost use Rattle.matcher.specs.Nodes.{valid, used, largest};

use crate::kind::Kind;

// One node: its kids are `count` numbers of the pool, from `first` on.
// Kids stand in one pool and not in a Vec for each node, since all memory is reserved when a table is made.
#[derive(Clone, Copy)]
pub(crate) struct Row {
    pub(crate) kind: Kind,
    pub(crate) number: u16,
    pub(crate) depth: u8,
    pub(crate) first: usize,
    pub(crate) count: usize,
}

// Rows and a pool of kids, both reserved to the limit.
// Ghost fields and no model: the laws of a store hold of every table, which a model's value alone would not show.
#[derive(Drop)]
pub(crate) struct Table {
    pub(crate) rows: Vec<Row>,
    pub(crate) pool: Vec<usize>,
    pub(crate) limit: usize,
    ghost granted: { valid limit (nodes_of rows.items pool.items) ≡ true },
    ghost small: { limit ≤ largest },
    ghost within: { spans (vec_len pool) rows.items ≡ true },
    ghost taken: { used (nodes_of rows.items pool.items) ≡ vec_len rows + vec_len pool },
    ghost deep: { Deep rows.items (nodes_of rows.items pool.items) },
    ghost rows_reserved: { limit ≤ vec_capacity rows },
    ghost pool_reserved: { limit ≤ vec_capacity pool },
}
