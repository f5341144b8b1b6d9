ghost use Rattle.std.specs.Prelude.{◌≡◌, ◌≤◌, length, nat_lt, slice_get};
ghost use Rattle.values.specs.Cells.{each};
ghost use Rattle.std.specs.Result.{result_err};
ghost use Rattle.job_format.specs.Limits.{cell_bytes};
ghost use Rattle.job_format.specs.Bodies.{cell_in, fault_of};
ghost use Rattle.job.specs.Held.{cell_held};

use crate::bodies::{eight_at, two_at};
use crate::limits::CELL_BYTES;
use values::form::is_formed;
use values::head::Head;
use values::refusal::Refusal;

// A cell as it stands in the body of a record.
#[derive(Clone, Copy)]
pub(crate) struct CellBody<'a> {
    pub(crate) head: Head,
    pub(crate) parts: &'a [[u8; 2]],
}

impl<'a> CellBody<'a> {
    // The cell in a body.
    #[inline]
    pub(crate) fn new(body: &'a [u8]) -> CellBody<'a>
        requires { cell_bytes ≤ length body.now }
        ensures { cell_held result ≡ cell_in body.now }
    {
        let (parts, _) = body[CELL_BYTES..].as_chunks();
        let head = Head {
            ty: two_at(body, 0),
            flags: body[2],
            mark: eight_at(body, 3),
        };
        CellBody { head, parts }
    }

    // The part at the place i.
    #[inline]
    pub(crate) fn part(self, i: usize) -> Option<usize>
        ensures { result ≡ slice_get (cell_held self.entry).parts i }
    {
        let part = self.parts.get(i)?;
        Some(u16::from_be_bytes(*part) as usize)
    }

    // Whether each part is one of so many cells.
    fn has_parts_below(self, cells: usize) -> bool
        ensures { result ≡ each (λ p. nat_lt p cells) (cell_held self.entry).parts }
    {
        self.parts
            .iter()
            .all(|part| (u16::from_be_bytes(*part) as usize) < cells)
    }

    // Whether the cell is good where there are so many cells, and else why it is turned down.
    pub(crate) fn test(self, cells: usize) -> Result<(), Refusal>
        ensures { result_err result ≡ fault_of cells (cell_held self.entry) }
    {
        if !self.has_parts_below(cells) {
            return Err(Refusal::NoValue);
        }
        if !is_formed(self.head, self.parts.len()) {
            return Err(Refusal::BadForm);
        }
        Ok(())
    }
}
