ghost use Rattle.std.specs.Prelude.{◌≡◌, ⊤};
ghost use Rattle.job_format.specs.Tags.{tag_number};
ghost use Rattle.job.specs.Walked.{AllFit, numbered_left};

use crate::from_body::FromBody;
use crate::records::Tagged;
use job_format::query::Query;
use std::alloc::AllocError;
use std::marker::PhantomData;

// The texts of a job that are still to come.
#[derive(Clone, Copy)]
pub struct Texts<'a> {
    pub(crate) tagged: Tagged<'a>,
}

// What the records with one tag say that are still to come.
pub struct Entries<'a, T: FromBody> {
    pub(crate) tagged: Tagged<'a>,
    pub(crate) of: PhantomData<T>,
    ghost shaped: { AllFit (tag_number T.TAG) (numbered_left tagged) },
}

impl<'a, T: FromBody> Copy for Entries<'a, T> {}

impl<'a, T: FromBody> Clone for Entries<'a, T> {
    ghost is_clone = { λ s r. r ≡ s };

    ghost is_infallible = { λ _. ⊤ };

    fn clone(&self) -> Result<Entries<'a, T>, AllocError> {
        Ok(*self)
    }
}

// The queries of a job that are still to come.
pub type Queries<'a> = Entries<'a, Query>;
