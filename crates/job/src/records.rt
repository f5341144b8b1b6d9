ghost use Rattle.std.specs.Prelude.{◌+◌, ◌<◌, ◌^◌, length};

use job_format::tag::Tag;

// A record: its number, the tag, and the body.
#[derive(Clone, Copy)]
pub(crate) struct Record<'a> {
    pub(crate) number: usize,
    pub(crate) tag: u8,
    pub(crate) body: &'a [u8],
}

// The records of some bytes that are still to come.
#[derive(Clone, Copy)]
pub(crate) struct Records<'a> {
    pub(crate) number: usize,
    pub(crate) rest: &'a [u8],
    ghost room: { number + length rest.now < 2 ^ 64 },
}

// Those that have one tag.
#[derive(Clone, Copy)]
pub(crate) struct Tagged<'a> {
    pub(crate) records: Records<'a>,
    pub(crate) tag: Tag,
}
