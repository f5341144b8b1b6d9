ghost use Rattle.std.specs.Prelude.{◌≡◌, false, MatchOption};
ghost use Rattle.std.specs.Iterator.{YieldsFirstBy, item_count};
ghost use Rattle.job_format.specs.Tags.{tag_number};
ghost use Rattle.job_format.specs.Frames.{Splits, is_whole, records};
ghost use Rattle.job.specs.Walked.{StartsAt, Steps, still_to_come, numbered, numbered_left, numbered_of};

use crate::records::{Record, Records, Tagged};
use job_format::tag::Tag;

// The tag and the body at the front of some bytes, and what follows. The first three bytes are the tag and the body's length.
#[inline]
fn split(s: &[u8]) -> Option<(u8, &[u8], &[u8])>
    ensures { MatchOption result (is_whole s.now ≡ false) (λ c. Splits s.now c.0 c.1.now c.2.now) }
{
    let [tag, hi, lo, after @ ..] = s else {
        return None;
    };
    let len = u16::from_be_bytes([*hi, *lo]) as usize;
    let (body, rest) = after.split_at_checked(len)?;
    Some((*tag, body, rest))
}

// The records of some bytes, from the first on.
pub(crate) fn records(bytes: &[u8]) -> Records<'_>
    ensures { StartsAt bytes.now result }
{
    Records {
        number: 0,
        rest: bytes,
    }
}

// Those that have this tag.
pub(crate) fn tagged(bytes: &[u8], tag: Tag) -> Tagged<'_>
    ensures { numbered_left result ≡ numbered (tag_number tag) 0 (records bytes.now) }
{
    Tagged {
        records: records(bytes),
        tag,
    }
}

impl<'a> Iterator for Records<'a> {
    type Item = Record<'a>;

    ghost next_gives = { Steps };

    ghost remaining = { item_count still_to_come };

    #[inline]
    fn next(&mut self) -> Option<Record<'a>> {
        let (tag, body, rest) = split(self.rest)?;
        let number = self.number;
        self.number += 1;
        self.rest = rest;
        Some(Record { number, tag, body })
    }
}

impl<'a> Iterator for Tagged<'a> {
    type Item = Record<'a>;

    ghost next_gives = { YieldsFirstBy numbered_of numbered_left };

    ghost remaining = { item_count numbered_left };

    #[inline]
    fn next(&mut self) -> Option<Record<'a>> {
        let tag = u8::from(self.tag);
        self.records.find(|record| record.tag == tag)
    }
}
