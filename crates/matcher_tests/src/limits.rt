// Nodes 64 deep, and with 64 kids.
use crate::bench::{customs, over, say, tell};
use crate::cells::{int, list, own_list, text, tuple};
use matcher::alloc::TypeMatcherAlloc;
use matcher::kind::Kind;
use matcher::stores::SharingStore;
use matching::running::run;
use values::empty::EmptyHeap;
use values::live::LiveHeap;
use values::value::Value;

// The number of a node that is missing.
const MISSING: usize = 9999;

fn node(store: &mut SharingStore, kind: Kind, kids: &[usize]) -> usize {
    store.alloc(over(kind, kids)).unwrap_or(MISSING)
}

// The node in so many IsListOf.
fn wrapped(store: &mut SharingStore, root: usize, times: usize) -> usize {
    let mut n = root;
    for _ in 0..times {
        n = node(store, Kind::IsListOf, &[n]);
    }
    n
}

// The value in so many lists.
fn nested(live: &mut LiveHeap<EmptyHeap>, value: Value, times: usize) -> Value {
    let mut v = value;
    for _ in 0..times {
        v = list(live, &[v]);
    }
    v
}

// Nodes 64 and 65 deep.
pub(crate) fn deep(rt: HostRuntime) -> anyhow::Result<()> {
    let mut store = SharingStore::new(rt.alloc(), 1000)?;
    let any_int = node(&mut store, Kind::IsInt, &[]);
    let any_list = node(&mut store, Kind::IsList, &[]);
    let ints = wrapped(&mut store, any_int, 63);
    let own_lists = wrapped(&mut store, any_list, 63);
    say(rt, "64 deep", Ok(ints))?;
    say(rt, "64 deep too", Ok(own_lists))?;
    let found = store.alloc(over(Kind::IsListOf, &[ints]));
    say(rt, "65 deep", found)?;
    let found = store.alloc(over(Kind::IsAnyOfTwo, &[any_int, ints]));
    say(rt, "65 deep of two", found)?;
    deep_runs(rt, &store, ints, own_lists)
}

// Runs 64 deep, one of them on a list that holds itself.
fn deep_runs(
    rt: HostRuntime,
    store: &SharingStore,
    ints: usize,
    own_lists: usize,
) -> anyhow::Result<()> {
    let heap = rt.alloc();
    let mut live = LiveHeap::over(heap, EmptyHeap)?;
    let seven = int(&mut live, 7);
    let own = own_list(&mut live);
    let lists = nested(&mut live, seven, 63);
    let fewer = nested(&mut live, seven, 62);
    let c = customs(heap)?;
    let found = run(ints, lists, &live, store, &c);
    tell(rt, "63 lists of an int", found)?;
    let found = run(ints, fewer, &live, store, &c);
    tell(rt, "62 lists of an int", found)?;
    let found = run(ints, own, &live, store, &c);
    tell(rt, "a list of itself, at an int", found)?;
    let found = run(own_lists, own, &live, store, &c);
    tell(rt, "a list of itself, at a list", found)?;
    let found = run(own_lists, lists, &live, store, &c);
    tell(rt, "63 lists of an int, at a list", found)?;
    Ok(())
}

// Nodes of 64 and of 65 kids.
pub(crate) fn wide(rt: HostRuntime) -> anyhow::Result<()> {
    let mut store = SharingStore::new(rt.alloc(), 1000)?;
    let any_int = node(&mut store, Kind::IsInt, &[]);
    let any_str = node(&mut store, Kind::IsStr, &[]);
    let mut sides = [any_int; 64];
    sides[63] = any_str;
    let elems = node(&mut store, Kind::IsTupleElems, &[any_int; 64]);
    let union = node(&mut store, Kind::IsAnyOf, &sides);
    let deep = wrapped(&mut store, any_int, 63);
    say(rt, "64 kids", Ok(elems))?;
    say(rt, "64 sides", Ok(union))?;
    let found = store.alloc(over(Kind::IsTupleElems, &[any_int; 65]));
    say(rt, "65 kids", found)?;
    let found = store.alloc(over(Kind::IsListOf, &[any_int; 65]));
    say(rt, "65 kids of a list", found)?;
    let found = store.alloc(over(Kind::IsAnyOf, &[deep; 65]));
    say(rt, "65 kids, 64 deep", found)?;
    let found = store.alloc(over(Kind::IsAnyOf, &[MISSING; 65]));
    say(rt, "65 missing kids", found)?;
    wide_runs(rt, &store, elems, union)
}

// Runs of nodes with 64 kids.
fn wide_runs(
    rt: HostRuntime,
    store: &SharingStore,
    elems: usize,
    union: usize,
) -> anyhow::Result<()> {
    let heap = rt.alloc();
    let mut live = LiveHeap::over(heap, EmptyHeap)?;
    let seven = int(&mut live, 7);
    let s = text(&mut live);
    let full = tuple(&mut live, &[seven; 64]);
    let fewer = tuple(&mut live, &[seven; 63]);
    let c = customs(heap)?;
    tell(rt, "a tuple of 64", run(elems, full, &live, store, &c))?;
    tell(rt, "a tuple of 63", run(elems, fewer, &live, store, &c))?;
    let found = run(union, s, &live, store, &c);
    tell(rt, "the last of 64 sides", found)?;
    let found = run(union, full, &live, store, &c);
    tell(rt, "none of 64 sides", found)?;
    Ok(())
}
