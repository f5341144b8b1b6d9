// Stores of five places.
use crate::bench::{leaf, over, say};
use matcher::alloc::TypeMatcherAlloc;
use matcher::kind::Kind;
use matcher::node::Node;
use matcher::stores::{PlainStore, SharingStore};

const INT: Node<'static> = Node {
    kind: Kind::IsInt,
    number: 0,
    kids: &[],
};

fn sizes<S: TypeMatcherAlloc>(rt: HostRuntime, store: &S) -> anyhow::Result<()> {
    say(rt, "  nodes", Ok(store.count()))?;
    say(rt, "  free", Ok(store.free()))
}

// Two nodes without kids and one over them take five places; then each is asked for again.
fn fill<S: TypeMatcherAlloc>(rt: HostRuntime, store: &mut S) -> anyhow::Result<()> {
    let shares = S::is_sharing();
    println!(rt; "a store of five places, sharing: {shares}")?;
    let s = leaf(Kind::IsStr, 0);
    let none = Kind::IsNone;
    let both = over(Kind::IsAnyOfTwo, &[0, 1]);
    sizes(rt, store)?;
    say(rt, "  IsInt", store.alloc(INT))?;
    say(rt, "  IsStr", store.alloc(s))?;
    sizes(rt, store)?;
    let three = over(Kind::IsAnyOf, &[0, 1, 0]);
    say(rt, "  IsAnyOf of three", store.alloc(three))?;
    say(rt, "  IsAnyOfTwo", store.alloc(both))?;
    sizes(rt, store)?;
    say(rt, "  IsStr again", store.alloc(s))?;
    say(rt, "  IsAnyOfTwo again", store.alloc(both))?;
    let turned = over(Kind::IsAnyOfTwo, &[1, 0]);
    say(rt, "  its kids the other way", store.alloc(turned))?;
    say(rt, "  IsNone", store.alloc(leaf(none, 0)))?;
    say(rt, "  IsNone numbered 1", store.alloc(leaf(none, 1)))?;
    let missing = over(Kind::IsListOf, &[3]);
    say(rt, "  IsListOf a missing node", store.alloc(missing))?;
    sizes(rt, store)
}

pub(crate) fn plain(rt: HostRuntime) -> anyhow::Result<()> {
    let heap = rt.alloc();
    let mut store = PlainStore::new(heap, 5)?;
    fill(rt, &mut store)?;
    let mut again = PlainStore::new(heap, 2)?;
    say(rt, "IsInt", again.alloc(INT))?;
    say(rt, "IsInt once more", again.alloc(INT))?;
    let mut none = PlainStore::new(heap, 0)?;
    say(rt, "IsInt without a place", none.alloc(INT))
}

pub(crate) fn sharing(rt: HostRuntime) -> anyhow::Result<()> {
    let heap = rt.alloc();
    let mut store = SharingStore::new(heap, 5)?;
    fill(rt, &mut store)?;
    let mut largest = SharingStore::new(heap, 65535)?;
    say(rt, "IsInt", largest.alloc(INT))?;
    say(rt, "IsInt once more", largest.alloc(INT))?;
    say(rt, "free of 65535", Ok(largest.free()))
}
