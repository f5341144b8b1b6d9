// A node, as it is asked for and as a store answers it.
ghost use Rattle.std.specs.Prelude.{◌≡◌, length};
ghost use Rattle.matcher.specs.Nodes.{arity, numbered, formed, all_below};
ghost use Rattle.matcher.specs.Held.{meant};

use crate::kind::Kind;
use values::built_in::is_type_number;

// A kind, a number and the numbers of the kids.
#[derive(Clone, Copy, PartialEq, Eq, Debug)]
pub struct Node<'a> {
    pub kind: Kind,
    pub number: u16,
    pub kids: &'a [usize],
}

impl Node<'_> {
    fn fits_kind(&self) -> bool
        ensures { result ≡ arity self.now.kind (length self.now.kids.now) }
    {
        let kids = self.kids.len();
        match self.kind {
            Kind::IsListOf | Kind::IsTupleOf | Kind::IsTupleElems1 | Kind::IsSetOf => kids == 1,
            Kind::IsDictOf | Kind::IsTupleElems2 | Kind::IsAnyOfTwo => kids == 2,
            Kind::IsTupleElems | Kind::IsAnyOf => kids >= 3,
            _ => kids == 0,
        }
    }

    fn fits_number(&self) -> bool
        ensures { result ≡ numbered self.now.kind self.now.number }
    {
        match self.kind {
            Kind::StarlarkTypeIdMatcher => is_type_number(self.number),
            Kind::Custom => true,
            _ => self.number == 0,
        }
    }

    pub(crate) fn is_formed(&self) -> bool
        ensures { result ≡ formed (meant self.now) }
    {
        self.fits_kind() & self.fits_number()
    }
    // Whether each kid is a node of the first so many.
    pub(crate) fn is_over(&self, count: usize) -> bool
        ensures { result ≡ all_below count self.now.kids.now }
    {
        self.kids.iter().all(|k| *k < count)
    }
}
