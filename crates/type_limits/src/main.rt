// The table of types at its limits, a line for each case.
#![tactic(auto)]

use std::alloc::{AllocError, Global};
use typing::types::Types;
use values::built_in::BuiltIn;
use values::refusal::Refusal;

const NEVER: usize = 0;

const ANY: usize = 1;

// The first type number of the host's own types.
const HOST: u16 = 16;

fn told(heap: Global, r: Result<usize, Refusal>) -> Result<String, AllocError> {
    match r {
        Ok(n) => format!(in heap; "{n}"),
        Err(why) => format!(in heap; "refused {why}"),
    }
}

// A plain type of the ones that each host has.
fn plain(types: &mut Types, ty: BuiltIn) -> Result<usize, Refusal> {
    types.starlark_value(u16::from(ty))
}

// The number of a type, or never where it was refused.
fn number(r: Result<usize, Refusal>) -> usize {
    r.unwrap_or(NEVER)
}

// What stands from the start, and what a call for it answers.
fn start(rt: HostRuntime, heap: Global) -> anyhow::Result<()> {
    let mut types = Types::new(heap)?;
    let count = types.count();
    let both = told(heap, types.union2(NEVER, ANY))?;
    let nine = told(heap, types.starlark_value(9))?;
    let zero = told(heap, types.starlark_value(0))?;
    let missing = told(heap, types.list(2))?;
    let int = told(heap, plain(&mut types, BuiltIn::Int))?;
    let again = told(heap, plain(&mut types, BuiltIn::Int))?;
    println!(rt;
        "start: {count} types, never and any {both}, 9 {nine}, 0 {zero}, list of 2 {missing}, int {int} {again}"
    )?;
    Ok(())
}

// Two lists become one of the joined items, two sets do not.
fn merges(rt: HostRuntime, heap: Global) -> anyhow::Result<()> {
    let mut types = Types::new(heap)?;
    let int = number(plain(&mut types, BuiltIn::Int));
    let text = number(plain(&mut types, BuiltIn::Str));
    let ints = number(types.list(int));
    let texts = number(types.list(text));
    let joined = number(types.union2(ints, texts));
    let both = number(types.union2(int, text));
    let list = told(heap, types.list(both))?;
    println!(rt; "lists: {joined}, list of int or str {list}")?;
    let one = number(types.set(int));
    let two = number(types.set(text));
    let sets = number(types.union2(one, two));
    let wide = told(heap, types.width(sets))?;
    println!(rt; "sets: {wide} alternatives")?;
    Ok(())
}

// int under 31 lists is 32 deep, under 32 refused.
fn deep(rt: HostRuntime, heap: Global) -> anyhow::Result<()> {
    let mut types = Types::new(heap)?;
    let mut t = number(plain(&mut types, BuiltIn::Int));
    for _ in 0..31 {
        t = number(types.list(t));
    }
    let depth = told(heap, types.depth(t))?;
    let weight = told(heap, types.weight(t))?;
    let next = told(heap, types.list(t))?;
    let count = types.count();
    println!(rt; "deep: {depth}, weight {weight}, one more {next}, {count} types")?;
    Ok(())
}

// A tuple of 64 and of 65; a union of 64 and of 65.
fn wide(rt: HostRuntime, heap: Global) -> anyhow::Result<()> {
    let mut types = Types::new(heap)?;
    let int = number(plain(&mut types, BuiltIn::Int));
    let most = told(heap, types.tuple(&[int; 64]))?;
    let more = told(heap, types.tuple(&[int; 65]))?;
    println!(rt; "tuples: of 64 {most}, of 65 {more}")?;
    let all = hosts(&mut types, 0, 64);
    let width = told(heap, types.width(all))?;
    let host = number(types.starlark_value(HOST + 64));
    let past = told(heap, types.union2(all, host))?;
    let known = told(heap, types.union2(all, all))?;
    println!(rt;
        "unions: {width} alternatives, one more {past}, itself {}",
        known == told(heap, Ok(all))?
    )?;
    Ok(())
}

// The union of `count` of the host's own types.
fn hosts(types: &mut Types, first: u16, count: u16) -> usize {
    let mut all = NEVER;
    for i in 0..count {
        let host = number(types.starlark_value(HOST.saturating_add(first).saturating_add(i)));
        all = number(types.union2(all, host));
    }
    all
}

// A weight of 4,096, and of 4,097.
fn heavy(rt: HostRuntime, heap: Global) -> anyhow::Result<()> {
    let mut types = Types::new(heap)?;
    let int = number(plain(&mut types, BuiltIn::Int));
    let ints = number(types.tuple(&[int; 64]));
    let most = number(types.tuple(&[ints; 63]));
    let weight = told(heap, types.weight(most))?;
    let mut parts = [ints; 64];
    parts[0] = int;
    let past = told(heap, types.tuple(&parts))?;
    println!(rt; "heavy: {weight}, one more {past}")?;
    Ok(())
}

// A union that is too heavy inside and too wide outside is refused by the width.
fn first_reason(rt: HostRuntime, heap: Global) -> anyhow::Result<()> {
    let mut types = Types::new(heap)?;
    let int = number(plain(&mut types, BuiltIn::Int));
    let ints = number(types.tuple(&[int; 64]));
    let one = number(types.tuple(&[ints; 40]));
    let two = number(types.tuple(&[ints; 41]));
    let inside = told(heap, types.union2(one, two))?;
    let left = number(types.list(one));
    let right = number(types.list(two));
    let lists = told(heap, types.union2(left, right))?;
    let some = hosts(&mut types, 0, 40);
    let others = hosts(&mut types, 40, 40);
    let a = number(types.union2(left, some));
    let b = number(types.union2(right, others));
    let stood = types.count();
    let both = told(heap, types.union2(a, b))?;
    let count = types.count();
    println!(rt;
        "first reason: items {inside}, lists {lists}, both {both}, added {}",
        count.saturating_sub(stood)
    )?;
    Ok(())
}

// 1,024 types.
fn many(rt: HostRuntime, heap: Global) -> anyhow::Result<()> {
    let mut types = Types::new(heap)?;
    for i in 0..1022 {
        let _ = types.starlark_value(HOST + i);
    }
    let count = types.count();
    let next = told(heap, plain(&mut types, BuiltIn::Int))?;
    let known = told(heap, types.starlark_value(HOST + 1021))?;
    let union = told(heap, types.union2(2, 3))?;
    println!(rt; "types: {count}, one more {next}, the last {known}, a union {union}")?;
    Ok(())
}

// 64 types, of which the first seven tell the bits of a number.
fn pattern(zero: usize, one: usize, n: u8) -> [usize; 64] {
    let mut parts = [zero; 64];
    for (i, part) in parts.iter_mut().take(7).enumerate() {
        if (n >> i as u32) & 1 == 1 {
            *part = one;
        }
    }
    parts
}

// 8,192 places: one for an alternative, one more for each element of a fixed tuple.
fn crowded(rt: HostRuntime, heap: Global) -> anyhow::Result<()> {
    let mut types = Types::new(heap)?;
    let int = number(plain(&mut types, BuiltIn::Int));
    let text = number(plain(&mut types, BuiltIn::Str));
    let mut last = 0;
    for k in 0..125u8 {
        last = number(types.tuple(&pattern(int, text, k)));
    }
    let next = told(heap, types.tuple(&[text; 64]))?;
    let rest = told(heap, types.tuple(&[text; 63]))?;
    let none = told(heap, types.callable())?;
    println!(rt;
        "places: the last tuple {last}, one of 64 more {next}, one of 63 {rest}, one alternative {none}"
    )?;
    Ok(())
}

fn main(rt: HostRuntime) -> anyhow::Result<()> {
    let heap = rt.alloc();
    start(rt, heap)?;
    merges(rt, heap)?;
    deep(rt, heap)?;
    wide(rt, heap)?;
    heavy(rt, heap)?;
    first_reason(rt, heap)?;
    many(rt, heap)?;
    crowded(rt, heap)?;
    Ok(())
}
