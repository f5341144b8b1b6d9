// The nodes that annotations become, in a store that never shares and in one that shares. Custom 0 is a wildcard, custom 1 is not.
#![tactic(auto)]

use annotation::reader::Reader;
use custom::entries::Mark;
use custom::marks::Marks;
use custom::ty_custom::TyCustom;
use matcher::alloc::TypeMatcherAlloc;
use matcher::kind::Kind;
use matcher::stores::{PlainStore, SharingStore};
use std::alloc::Global;
use type_compiled::annotations::{Annotations, TypeCompiled};
use type_compiled::compile::alloc_ty;
use type_compiled::factory::TypeCompiledFactory;
use typing::types::Types;

const PLACES: u16 = 400;

// A node: its kind, its number where the kind has one, and its kids. A store names nodes and kids by numbers, so the loops count them.
fn show_node<S: TypeMatcherAlloc>(rt: HostRuntime, store: &S, n: usize) -> anyhow::Result<()> {
    let Ok(kind) = store.kind(n) else {
        return Ok(());
    };
    print!(rt; " {n} {kind:?}")?;
    if let Ok(number) = store.number(n) {
        match kind {
            Kind::StarlarkTypeIdMatcher | Kind::Custom => print!(rt; " {number}")?,
            _ => {}
        }
    }
    for i in 0..store.kids(n).unwrap_or(0) {
        let mark = if i == 0 { "(" } else { ", " };
        if let Ok(kid) = store.kid(n, i) {
            print!(rt; "{mark}{kid}")?;
        }
    }
    if store.kids(n).unwrap_or(0) > 0 {
        print!(rt; ")")?;
    }
    Ok(())
}

fn show<S: TypeMatcherAlloc>(
    rt: HostRuntime,
    name: &str,
    store: &S,
    annotations: &Annotations,
) -> anyhow::Result<()> {
    print!(rt; "  {name}:")?;
    for n in 0..store.count() {
        if n > 0 {
            print!(rt; ",")?;
        }
        show_node(rt, store, n)?;
    }
    for a in 0..annotations.count() {
        if let Ok(root) = annotations.root(TypeCompiled(a)) {
            print!(rt; "; root {root}")?;
        }
    }
    println!(rt; "")?;
    Ok(())
}

fn compile<S: TypeMatcherAlloc>(
    rt: HostRuntime,
    heap: Global,
    name: &str,
    types: &Types,
    ty: usize,
    customs: &Marks,
    store: &mut S,
) -> anyhow::Result<()> {
    let mut annotations = Annotations::new(heap)?;
    if let Err(why) = alloc_ty(
        TypeCompiledFactory::new(ty),
        types,
        customs,
        store,
        &mut annotations,
    ) {
        let number = u8::from(why);
        println!(rt; "  {name}: refused {number}")?;
        return Ok(());
    }
    show(rt, name, store, &annotations)
}

fn tables(rt: HostRuntime, heap: Global, customs: &Marks, text: &str) -> anyhow::Result<()> {
    println!(rt; "{text}")?;
    let mut types = Types::new(heap)?;
    let mut reader = Reader::new(heap)?;
    let Ok(ty) = reader.read(text.as_bytes(), &mut types) else {
        return Ok(());
    };
    let mut plain = PlainStore::new(heap, PLACES)?;
    compile(rt, heap, "never shares", &types, ty, customs, &mut plain)?;
    let mut sharing = SharingStore::new(heap, PLACES)?;
    compile(rt, heap, "shares", &types, ty, customs, &mut sharing)?;
    Ok(())
}

fn main(rt: HostRuntime) -> anyhow::Result<()> {
    let heap = rt.alloc();
    let entries = vec![in heap; Mark { ty: 0, mark: 0 }, Mark { ty: 1, mark: 7 }]?;
    let Ok(customs) = Marks::new(entries) else {
        return Ok(());
    };
    for line in rt.lines(heap) {
        tables(rt, heap, &customs, line?.as_str())?;
    }
    Ok(())
}
