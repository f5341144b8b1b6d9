// What is refused, and by which reason.
use crate::bench::{customs, leaf, over, say, tell};
use crate::cells::int;
use matcher::alloc::TypeMatcherAlloc;
use matcher::kind::Kind;
use matcher::stores::PlainStore;
use matching::running::run;
use values::empty::EmptyHeap;
use values::live::LiveHeap;
use values::value::Value;

// The type numbers that a matcher may have.
fn numbers(rt: HostRuntime, store: &mut PlainStore) -> anyhow::Result<()> {
    for n in [0, 8, 9, 15, 16] {
        let name = format!(in rt.alloc(); "StarlarkTypeIdMatcher {n}")?;
        let node = leaf(Kind::StarlarkTypeIdMatcher, n);
        say(rt, name.as_str(), store.alloc(node))?;
    }
    Ok(())
}

pub(crate) fn forms(rt: HostRuntime) -> anyhow::Result<()> {
    let mut store = PlainStore::new(rt.alloc(), 100)?;
    let list = Kind::IsListOf;
    say(rt, "IsInt", store.alloc(leaf(Kind::IsInt, 0)))?;
    say(rt, "IsInt numbered 1", store.alloc(leaf(Kind::IsInt, 1)))?;
    say(rt, "IsInt of a node", store.alloc(over(Kind::IsInt, &[0])))?;
    say(rt, "IsListOf of none", store.alloc(leaf(list, 0)))?;
    say(rt, "IsListOf of two", store.alloc(over(list, &[0, 0])))?;
    let dict = over(Kind::IsDictOf, &[0]);
    say(rt, "IsDictOf of one", store.alloc(dict))?;
    let union = over(Kind::IsAnyOf, &[0, 0]);
    say(rt, "IsAnyOf of two", store.alloc(union))?;
    let tuple = over(Kind::IsTupleElems, &[0, 0]);
    say(rt, "IsTupleElems of two", store.alloc(tuple))?;
    numbers(rt, &mut store)?;
    let last = leaf(Kind::Custom, 65535);
    say(rt, "Custom 65535", store.alloc(last))?;
    say(rt, "IsListOf of itself", store.alloc(over(list, &[4])))?;
    let name = "IsListOf of two, one missing";
    say(rt, name, store.alloc(over(list, &[0, 4])))?;
    say(rt, "nodes", Ok(store.count()))?;
    say(rt, "free", Ok(store.free()))
}

pub(crate) fn runs(rt: HostRuntime) -> anyhow::Result<()> {
    let heap = rt.alloc();
    let mut live = LiveHeap::over(heap, EmptyHeap)?;
    let mut store = PlainStore::new(heap, 100)?;
    int(&mut live, 7);
    say(rt, "IsInt", store.alloc(leaf(Kind::IsInt, 0)))?;
    let c = customs(heap)?;
    for (n, v) in [(0, 0), (1, 0), (0, 1), (1, 1)] {
        let name = format!(in heap; "node {n}, value {v}")?;
        let found = run(n, Value(v), &live, &store, &c);
        tell(rt, name.as_str(), found)?;
    }
    let found = run(0, Value(0), &EmptyHeap, &store, &c);
    tell(rt, "node 0, value 0, no cells", found)
}

pub(crate) fn questions(rt: HostRuntime) -> anyhow::Result<()> {
    let mut store = PlainStore::new(rt.alloc(), 100)?;
    say(rt, "Custom 7", store.alloc(leaf(Kind::Custom, 7)))?;
    say(rt, "IsAny", store.alloc(leaf(Kind::IsAny, 0)))?;
    let dict = over(Kind::IsDictOf, &[1, 0]);
    say(rt, "IsDictOf", store.alloc(dict))?;
    say(rt, "kind of 0", store.kind(0).map(|k| u8::from(k)))?;
    say(rt, "kind of 2", store.kind(2).map(|k| u8::from(k)))?;
    say(rt, "kind of 3", store.kind(3).map(|k| u8::from(k)))?;
    say(rt, "number of 0", store.number(0))?;
    say(rt, "number of 2", store.number(2))?;
    say(rt, "number of 3", store.number(3))?;
    say(rt, "kids of 0", store.kids(0))?;
    say(rt, "kids of 2", store.kids(2))?;
    say(rt, "kids of 3", store.kids(3))?;
    say(rt, "kid 0 of 2", store.kid(2, 0))?;
    say(rt, "kid 1 of 2", store.kid(2, 1))?;
    say(rt, "kid 2 of 2", store.kid(2, 2))?;
    say(rt, "kid 0 of 3", store.kid(3, 0))
}
