// The most bytes of a job.
pub const MOST_BYTES: usize = 60000;

// The most cells of a job.
pub const MOST_CELLS: usize = 4096;

// The most entries of the Marks, and of the Ranges.
pub const MOST_ENTRIES: usize = 64;

// The bytes of a cell without parts.
pub(crate) const CELL_BYTES: usize = 11;

// The bytes of an entry of the Marks.
pub(crate) const MARK_BYTES: usize = 10;

// The bytes of an entry of the Ranges.
pub(crate) const RANGE_BYTES: usize = 16;

// The bytes of a query.
pub(crate) const QUERY_BYTES: usize = 4;
