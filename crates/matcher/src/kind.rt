ghost use Rattle.std.specs.Prelude.{◌≡◌};
ghost use Rattle.matcher.specs.Nodes.{ordinal};

// The kinds of matchers.
#[derive(Clone, Copy, PartialEq, Eq, Debug)]
pub enum Kind {
    IsAny,
    IsNever,
    IsStr,
    IsList,
    IsListOf,
    IsTupleOf,
    IsTupleElems,
    IsTupleElems0,
    IsTupleElems1,
    IsTupleElems2,
    IsDict,
    IsDictOf,
    IsSet,
    IsSetOf,
    IsAnyOfTwo,
    IsAnyOf,
    IsCallable,
    IsType,
    IsIterable,
    IsInt,
    IsBool,
    IsNone,
    StarlarkTypeIdMatcher,
    Custom,
}

// The place of a kind in the list of kinds.
impl From<Kind> for u8 {
    ghost from_gives = { λ kind r. r ≡ ordinal kind };

    fn from(kind: Kind) -> u8 {
        kind as u8
    }
}
