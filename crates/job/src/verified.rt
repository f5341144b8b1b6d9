ghost use Rattle.std.specs.Prelude.{◌≡◌, ◌≤◌, length};
ghost use Rattle.job_format.specs.Limits.{most_bytes};
ghost use Rattle.job_format.specs.Frames.{records, leftover};
ghost use Rattle.job_format.specs.Order.{Follow, CellsSound, cell_count};

// A job that was tested and found good, with the count of its cells.
#[derive(Drop)]
pub struct Job {
    pub(crate) bytes: Vec<u8>,
    pub(crate) cells: usize,
    ghost counted: { cells ≡ cell_count (records bytes.items) },
    ghost small: { length bytes.items ≤ most_bytes },
    ghost follow: { Follow (records bytes.items) (length (records bytes.items)) },
    ghost whole: { length (leftover bytes.items) ≡ 0 },
    ghost sound: { CellsSound (records bytes.items) (length (records bytes.items)) },
}
