ghost use Rattle.std.specs.Prelude.{◌≡◌, ℕ, ◌+◌, ◌*◌, ◌<◌, ◌≤◌, length, slice_index};
ghost use Rattle.job_format.specs.Tags.{tag_number};
ghost use Rattle.job_format.specs.Bodies.{shaped, limit, signed_at};

use crate::limits::{
    CELL_BYTES, MARK_BYTES, MOST_BYTES, MOST_CELLS, MOST_ENTRIES, QUERY_BYTES, RANGE_BYTES,
};
use job_format::tag::Tag;

// So many bytes from the place i on.
#[inline]
fn chunk_at<const N: usize>(body: &[u8], i: usize) -> [u8; N]
    requires { i + N ≤ length body.now }
    ensures { (k : ℕ) → k < N → slice_index result k ≡ slice_index body.now (i + k) }
{
    *body[i..].first_chunk().unwrap()
}

// A two-byte number from the place i on.
#[inline]
pub(crate) fn two_at(body: &[u8], i: usize) -> u16
    requires { i + 2 ≤ length body.now }
    ensures { result ≡ slice_index body.now i * 256 + slice_index body.now (i + 1) }
{
    u16::from_be_bytes(chunk_at(body, i))
}

// An eight-byte signed number from the place i on.
#[inline]
pub(crate) fn eight_at(body: &[u8], i: usize) -> i64
    requires { i + 8 ≤ length body.now }
    ensures { result ≡ signed_at i body.now }
{
    i64::from_be_bytes(chunk_at(body, i))
}

// Whether the body of a record can be so long.
pub(crate) fn has_length(tag: Tag, len: usize) -> bool
    ensures { result ≡ shaped (tag_number tag) len }
{
    match tag {
        Tag::Cell => len >= CELL_BYTES && (len - CELL_BYTES) % 2 == 0,
        Tag::Mark => len == MARK_BYTES,
        Tag::Range => len == RANGE_BYTES,
        Tag::Text => true,
        Tag::Query => len == QUERY_BYTES,
    }
}

// The most records of a tag; texts and queries are bounded by the size alone.
pub(crate) fn most_of(tag: Tag) -> usize
    ensures { result ≡ limit (tag_number tag) }
{
    match tag {
        Tag::Cell => MOST_CELLS,
        Tag::Mark => MOST_ENTRIES,
        Tag::Range => MOST_ENTRIES,
        Tag::Text => MOST_BYTES,
        Tag::Query => MOST_BYTES,
    }
}
