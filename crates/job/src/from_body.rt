ghost use Rattle.std.specs.Prelude.{◌≡◌, true, List, ℕ, length};
ghost use Rattle.job_format.specs.Tags.{tag_number};
ghost use Rattle.job_format.specs.Bodies.{shaped};
ghost use Rattle.job_format.specs.Contents.{mark_in, range_in, query_in_lem};
ghost use Rattle.job_format.specs.declared.tag.Tag.{Tag as GhostTag};
ghost use Rattle.job_format.specs.declared.tag.Tag.TheVariants.{Mark as mark_tag, Range as range_tag, Query as query_tag};

use crate::bodies::{eight_at, two_at};
use custom::entries::{Mark, Range};
use job_format::query::Query;
use job_format::tag::Tag;

// What the body of a record with one tag says.
pub(crate) trait FromBody: Copy {
    ghost TAG: { GhostTag };

    ghost read: { List ℕ → Self };

    const TAG: Tag;

    fn from_body(body: &[u8]) -> Self
        requires { shaped (tag_number TAG) (length body.now) ≡ true }
        ensures { result ≡ read body.now };
}

impl FromBody for Mark {
    ghost TAG = { mark_tag };

    ghost read = { mark_in };

    const TAG: Tag = Tag::Mark;

    fn from_body(body: &[u8]) -> Mark {
        Mark {
            ty: two_at(body, 0),
            mark: eight_at(body, 2),
        }
    }
}

impl FromBody for Range {
    ghost TAG = { range_tag };

    ghost read = { range_in };

    const TAG: Tag = Tag::Range;

    fn from_body(body: &[u8]) -> Range {
        Range {
            low: eight_at(body, 0),
            high: eight_at(body, 8),
        }
    }
}

impl FromBody for Query {
    ghost TAG = { query_tag };

    ghost read = { query_in_lem };

    const TAG: Tag = Tag::Query;

    fn from_body(body: &[u8]) -> Query {
        Query {
            annotation: two_at(body, 0),
            value: two_at(body, 2),
        }
    }
}
