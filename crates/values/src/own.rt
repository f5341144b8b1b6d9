use crate::head::Head;

// A cell of a live heap's own: its parts are `count` of the pool from `first` on.
// Rule: memory is reserved when a heap is made, so the parts of all cells lie in one pool.
#[derive(Clone, Copy)]
pub(crate) struct Own {
    pub(crate) head: Head,
    pub(crate) first: usize,
    pub(crate) count: usize,
}
