ghost use Rattle.std.specs.Iterator.{YieldsFirst, YieldsFirstBy, item_count};
ghost use Rattle.job.specs.Entered.{text_of, texts_left, entries_left};

use crate::entries::{Entries, Texts};
use crate::from_body::FromBody;
use crate::text::Text;

impl<'a> Iterator for Texts<'a> {
    type Item = Text<'a>;

    ghost next_gives = { YieldsFirstBy text_of texts_left };

    ghost remaining = { item_count texts_left };

    fn next(&mut self) -> Option<Text<'a>> {
        let record = self.tagged.next()?;
        Some(Text {
            record: record.number,
            bytes: record.body,
        })
    }
}

impl<'a, T: FromBody> Iterator for Entries<'a, T> {
    type Item = T;

    ghost next_gives = { YieldsFirst (entries_left T.read) };

    ghost remaining = { item_count (entries_left T.read) };

    fn next(&mut self) -> Option<T> {
        let record = self.tagged.next()?;
        Some(T::from_body(record.body))
    }
}
