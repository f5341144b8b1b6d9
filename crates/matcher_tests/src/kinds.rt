// One row for each kind, or a few.
use crate::bench::{leaf, open, over};
use matcher::kind::Kind;

pub(crate) fn simple(rt: HostRuntime) -> anyhow::Result<()> {
    let mut b = open(rt)?;
    let kinds = [
        Kind::IsAny,
        Kind::IsNever,
        Kind::IsInt,
        Kind::IsBool,
        Kind::IsNone,
        Kind::IsStr,
        Kind::IsList,
        Kind::IsDict,
        Kind::IsSet,
        Kind::IsCallable,
        Kind::IsIterable,
        Kind::IsType,
    ];
    for kind in kinds {
        b.kind(rt, kind)?;
    }
    Ok(())
}

pub(crate) fn holders(rt: HostRuntime) -> anyhow::Result<()> {
    let mut b = open(rt)?;
    let int = b.kind(rt, Kind::IsInt)?;
    let list = b.kind(rt, Kind::IsList)?;
    let never = b.kind(rt, Kind::IsNever)?;
    let ints = b.row(rt, "IsListOf(IsInt)", over(Kind::IsListOf, &[int]))?;
    b.row(rt, "IsListOf(IsList)", over(Kind::IsListOf, &[list]))?;
    b.row(
        rt,
        "IsListOf(IsListOf(IsInt))",
        over(Kind::IsListOf, &[ints]),
    )?;
    b.row(rt, "IsListOf(IsNever)", over(Kind::IsListOf, &[never]))?;
    b.row(rt, "IsSetOf(IsInt)", over(Kind::IsSetOf, &[int]))?;
    b.row(rt, "IsTupleOf(IsInt)", over(Kind::IsTupleOf, &[int]))?;
    Ok(())
}

pub(crate) fn tuples(rt: HostRuntime) -> anyhow::Result<()> {
    let mut b = open(rt)?;
    let int = b.kind(rt, Kind::IsInt)?;
    let s = b.kind(rt, Kind::IsStr)?;
    let none = b.kind(rt, Kind::IsNone)?;
    b.kind(rt, Kind::IsTupleElems0)?;
    let one = Kind::IsTupleElems1;
    b.row(rt, "IsTupleElems1(IsInt)", over(one, &[int]))?;
    b.row(rt, "IsTupleElems1(IsStr)", over(one, &[s]))?;
    let two = Kind::IsTupleElems2;
    b.row(rt, "IsTupleElems2(IsInt, IsStr)", over(two, &[int, s]))?;
    b.row(rt, "IsTupleElems2(IsStr, IsInt)", over(two, &[s, int]))?;
    let many = Kind::IsTupleElems;
    let name = "IsTupleElems(IsInt, IsStr, IsNone)";
    b.row(rt, name, over(many, &[int, s, none]))?;
    let name = "IsTupleElems(IsInt, IsInt, IsInt)";
    b.row(rt, name, over(many, &[int, int, int]))?;
    Ok(())
}

pub(crate) fn dicts(rt: HostRuntime) -> anyhow::Result<()> {
    let mut b = open(rt)?;
    let int = b.kind(rt, Kind::IsInt)?;
    let s = b.kind(rt, Kind::IsStr)?;
    let dict = b.kind(rt, Kind::IsDict)?;
    let name = "IsAnyOfTwo(IsInt, IsStr)";
    let both = b.row(rt, name, over(Kind::IsAnyOfTwo, &[int, s]))?;
    let of = Kind::IsDictOf;
    b.row(rt, "IsDictOf(IsInt, IsStr)", over(of, &[int, s]))?;
    b.row(rt, "IsDictOf(IsStr, IsInt)", over(of, &[s, int]))?;
    let name = "IsDictOf(IsAnyOfTwo(IsInt, IsStr), IsStr)";
    b.row(rt, name, over(of, &[both, s]))?;
    let name = "IsDictOf(IsInt, IsAnyOfTwo(IsInt, IsStr))";
    b.row(rt, name, over(of, &[int, both]))?;
    b.row(rt, "IsDictOf(IsInt, IsDict)", over(of, &[int, dict]))?;
    Ok(())
}

pub(crate) fn unions(rt: HostRuntime) -> anyhow::Result<()> {
    let mut b = open(rt)?;
    let never = b.kind(rt, Kind::IsNever)?;
    let s = b.kind(rt, Kind::IsStr)?;
    let int = b.kind(rt, Kind::IsInt)?;
    let none = b.kind(rt, Kind::IsNone)?;
    let two = Kind::IsAnyOfTwo;
    b.row(rt, "IsAnyOfTwo(IsNone, IsInt)", over(two, &[none, int]))?;
    b.row(rt, "IsAnyOfTwo(IsNever, IsStr)", over(two, &[never, s]))?;
    let many = Kind::IsAnyOf;
    let name = "IsAnyOf(IsStr, IsNone, IsInt)";
    b.row(rt, name, over(many, &[s, none, int]))?;
    let name = "IsAnyOf(IsNever, IsNever, IsStr)";
    b.row(rt, name, over(many, &[never, never, s]))?;
    Ok(())
}

pub(crate) fn numbered(rt: HostRuntime) -> anyhow::Result<()> {
    let mut b = open(rt)?;
    let heap = rt.alloc();
    for n in [1, 8, 16] {
        let name = format!(in heap; "StarlarkTypeIdMatcher {n}")?;
        b.row(rt, name.as_str(), leaf(Kind::StarlarkTypeIdMatcher, n))?;
    }
    for n in 0..4 {
        let name = format!(in heap; "Custom {n}")?;
        b.row(rt, name.as_str(), leaf(Kind::Custom, n))?;
    }
    Ok(())
}
