ghost use Rattle.std.specs.Prelude.{◌≡◌};
ghost use Rattle.std.specs.Option.{ok_or};
ghost use Rattle.job_format.specs.Tags.{tag_number, tag_of};

// What a record is.
#[derive(Clone, Copy, Debug, PartialEq, Eq)]
pub enum Tag {
    // A cell of the heap.
    Cell,
    // An entry of the Marks.
    Mark,
    // An entry of the Ranges.
    Range,
    // The text of an annotation.
    Text,
    // A query.
    Query,
}

// A first byte that no record has.
#[derive(Clone, Copy, Debug, PartialEq, Eq)]
pub struct UnknownTag(pub u8);

// The first byte of a record.
impl From<Tag> for u8 {
    ghost from_gives = { λ tag byte. byte ≡ tag_number tag };

    fn from(tag: Tag) -> u8 {
        match tag {
            Tag::Cell => 1,
            Tag::Mark => 2,
            Tag::Range => 3,
            Tag::Text => 4,
            Tag::Query => 5,
        }
    }
}

// What a record is whose first byte this is, if it is known.
impl TryFrom<u8> for Tag {
    type Error = UnknownTag;

    ghost try_from_gives = { λ byte found. found ≡ ok_or (tag_of byte) (record { 0 = byte }) };

    fn try_from(byte: u8) -> Result<Tag, UnknownTag> {
        match byte {
            1 => Ok(Tag::Cell),
            2 => Ok(Tag::Mark),
            3 => Ok(Tag::Range),
            4 => Ok(Tag::Text),
            5 => Ok(Tag::Query),
            _ => Err(UnknownTag(byte)),
        }
    }
}
