ghost use Rattle.std.specs.Prelude.{◌≡◌, ◌<◌};
ghost use Rattle.job_format.specs.Limits.{most_bytes};
ghost use Rattle.job.specs.Seens.{had, can_follow_lem, with_record_lem};

use crate::bodies::{has_length, most_of};
use crate::tally::Seen;
use job_format::tag::Tag;

impl Seen {
    // How many records began with this byte, if it is not below the last.
    fn had(self, byte: u8) -> usize
        ensures { result ≡ had self byte }
    {
        if byte == self.last { self.run } else { 0 }
    }

    // Whether a record that begins with this byte, with a body so long, can come next.
    pub(crate) fn can_follow(self, byte: u8, len: usize) -> bool
        ensures { result ≡ can_follow_lem self byte len }
    {
        match Tag::try_from(byte) {
            Ok(tag) => {
                has_length(tag, len) && self.last <= byte && self.had(byte) < most_of(tag)
            }
            Err(_) => false,
        }
    }

    // One record more.
    pub(crate) fn with_record(self, byte: u8) -> Seen
        requires run { had self byte < most_bytes }
        requires cells { self.cells < most_bytes }
        ensures { result ≡ with_record_lem self byte }
    {
        let is_cell = byte == u8::from(Tag::Cell);
        Seen {
            last: byte,
            run: self.had(byte) + 1,
            cells: self.cells + usize::from(is_cell),
        }
    }
}
