// The heaps and customs at their limits, a line for each case.
#![tactic(auto)]

mod nones;

use custom::entries::{Mark, Range};
use custom::marks::Marks;
use custom::pair::Pair;
use custom::ranges::Ranges;
use custom::ty_custom::TyCustom;
use nones::Nones;
use std::alloc::{AllocError, Global};
use std::fmt::Display;
use values::built_in::BuiltIn;
use values::empty::EmptyHeap;
use values::head::Head;
use values::heap::Heap;
use values::live::LiveHeap;
use values::refusal::Refusal;
use values::value::Value;

// The flag of a list, a dict, a set and a tuple.
const ITERABLE: u8 = 2;

fn head(ty: u16, flags: u8, mark: i64) -> Head {
    Head { ty, flags, mark }
}

fn int(mark: i64) -> Head {
    head(u16::from(BuiltIn::Int), 0, mark)
}

// A value of a built-in type, without a mark.
fn of(ty: BuiltIn, flags: u8) -> Head {
    head(u16::from(ty), flags, 0)
}

// What a call answers, or its refusal.
fn shown<T: Display + Drop>(heap: Global, r: Result<T, Refusal>) -> Result<String, AllocError> {
    match r {
        Ok(x) => format!(in heap; "{x}"),
        Err(why) => format!(in heap; "refused {why}"),
    }
}

fn done(_nothing: ()) -> &'static str {
    "done"
}

// 256 own cells, and no 257th.
fn many_cells(rt: HostRuntime, heap: Global) -> anyhow::Result<()> {
    let mut live = LiveHeap::over(heap, EmptyHeap)?;
    for i in 0..255 {
        let _ = live.new(int(i), &[]);
    }
    let last = shown(heap, live.new(int(255), &[]))?;
    let next = shown(heap, live.new(of(BuiltIn::NoneType, 0), &[]))?;
    let count = live.count();
    println!(rt; "cells: last {last}, next {next}, count {count}")?;
    Ok(())
}

// 2,048 own parts, and no 2,049th.
fn many_parts(rt: HostRuntime, heap: Global) -> anyhow::Result<()> {
    let mut live = LiveHeap::over(heap, EmptyHeap)?;
    let first = shown(heap, live.new(of(BuiltIn::NoneType, 0), &[]))?;
    let parts = [Value(0); 512];
    for _ in 0..3 {
        let _ = live.new(of(BuiltIn::List, ITERABLE), &parts);
    }
    let last = shown(heap, live.new(of(BuiltIn::List, ITERABLE), &parts))?;
    let one = shown(heap, live.new(of(BuiltIn::List, ITERABLE), &[Value(0)]))?;
    let empty = shown(heap, live.new(of(BuiltIn::List, ITERABLE), &[]))?;
    println!(rt; "parts: {first}, last {last}, one more {one}, none more {empty}")?;
    Ok(())
}

// 65,536 cells in all.
fn over_many(rt: HostRuntime, heap: Global, below: usize) -> anyhow::Result<()> {
    let Some(nones) = Nones::new(below) else {
        println!(rt; "below: {below} are too many")?;
        return Ok(());
    };
    let mut live = LiveHeap::over(heap, nones)?;
    let first = shown(heap, live.new(of(BuiltIn::NoneType, 0), &[]))?;
    let second = shown(heap, live.new(of(BuiltIn::NoneType, 0), &[]))?;
    let count = live.count();
    println!(rt; "below: {below}, first {first}, second {second}, count {count}")?;
    Ok(())
}

// What `new` refuses: a part that does not stand first, then the form.
fn forms(rt: HostRuntime, heap: Global) -> anyhow::Result<()> {
    let mut live = LiveHeap::over(heap, EmptyHeap)?;
    let itself = shown(heap, live.new(of(BuiltIn::List, ITERABLE), &[Value(0)]))?;
    let both = shown(heap, live.new(head(9, 0, 0), &[Value(7)]))?;
    let nine = shown(heap, live.new(head(9, 0, 0), &[]))?;
    let big = shown(heap, live.new(head(1, 8, 0), &[]))?;
    let marked = shown(heap, live.new(head(1, 8, 1), &[]))?;
    let two = shown(heap, live.new(head(2, 0, 2), &[]))?;
    let odd = shown(heap, live.new(of(BuiltIn::Dict, ITERABLE), &[Value(0)]))?;
    let host = shown(heap, live.new(head(16, 7, -1), &[]))?;
    let flagged = shown(heap, live.new(head(16, 8, 0), &[]))?;
    println!(rt;
        "forms: itself {itself}, both {both}, nine {nine}, big {big}, marked {marked}, two {two}, odd {odd}, host {host}, flagged {flagged}"
    )?;
    Ok(())
}

// What `put` does and refuses, before and after `freeze`.
fn puts(rt: HostRuntime, heap: Global) -> anyhow::Result<()> {
    let mut live = LiveHeap::over(heap, EmptyHeap)?;
    let none = shown(heap, live.new(of(BuiltIn::NoneType, 0), &[]))?;
    let list = shown(heap, live.new(of(BuiltIn::List, ITERABLE), &[Value(0)]))?;
    let dict = shown(
        heap,
        live.new(of(BuiltIn::Dict, ITERABLE), &[Value(0), Value(0)]),
    )?;
    let set = shown(heap, live.new(of(BuiltIn::Set, ITERABLE), &[Value(0)]))?;
    let tuple = shown(heap, live.new(of(BuiltIn::Tuple, ITERABLE), &[Value(0)]))?;
    println!(rt; "made: {none} {list} {dict} {set} {tuple}")?;
    let holds = shown(heap, live.put(Value(1), 0, Value(1)).map(done))?;
    let part = shown(heap, live.part(Value(1), 0))?;
    let key = shown(heap, live.put(Value(2), 0, Value(1)).map(done))?;
    let value = shown(heap, live.put(Value(2), 1, Value(1)).map(done))?;
    let place = shown(heap, live.put(Value(2), 2, Value(1)).map(done))?;
    println!(rt; "put: itself {holds}, part {part}, key {key}, value {value}, place {place}")?;
    let in_set = shown(heap, live.put(Value(3), 0, Value(1)).map(done))?;
    let in_tuple = shown(heap, live.put(Value(4), 0, Value(1)).map(done))?;
    let missing = shown(heap, live.put(Value(5), 0, Value(1)).map(done))?;
    let unknown = shown(heap, live.put(Value(1), 0, Value(5)).map(done))?;
    println!(rt; "put: set {in_set}, tuple {in_tuple}, missing {missing}, unknown {unknown}")?;
    live.freeze();
    let after = shown(heap, live.put(Value(1), 0, Value(0)).map(done))?;
    let key_after = shown(heap, live.put(Value(2), 0, Value(0)).map(done))?;
    let late = shown(heap, live.new(of(BuiltIn::List, ITERABLE), &[Value(1)]))?;
    let free = shown(heap, live.put(Value(5), 0, Value(5)).map(done))?;
    println!(rt; "frozen: put {after}, key {key_after}, new {late}, put there {free}")?;
    let old = shown(heap, live.is_frozen(Value(4)))?;
    let new = shown(heap, live.is_frozen(Value(5)))?;
    let none = shown(heap, live.is_frozen(Value(6)))?;
    println!(rt; "frozen: old {old}, new {new}, missing {none}")?;
    Ok(())
}

// A live heap over a live heap: all of the lower one is frozen for it.
fn over_live(rt: HostRuntime, heap: Global) -> anyhow::Result<()> {
    let mut lower = LiveHeap::over(heap, EmptyHeap)?;
    let a = shown(heap, lower.new(of(BuiltIn::Str, 0), &[]))?;
    let b = shown(heap, lower.new(of(BuiltIn::List, ITERABLE), &[Value(0)]))?;
    let mut live = LiveHeap::over(heap, lower)?;
    let c = shown(heap, live.new(of(BuiltIn::List, ITERABLE), &[Value(1)]))?;
    let low = shown(heap, live.put(Value(1), 0, Value(2)).map(done))?;
    let own = shown(heap, live.put(Value(2), 0, Value(2)).map(done))?;
    println!(rt; "over live: {a} {b} {c}, put below {low}, put own {own}")?;
    Ok(())
}

fn answer(b: bool) -> &'static str {
    if b { "yes" } else { "no" }
}

// Marks and Ranges, and the numbers of a pair of them.
fn customs(rt: HostRuntime, heap: Global) -> anyhow::Result<()> {
    let marks = vec![in heap; Mark { ty: 0, mark: 0 }, Mark { ty: 1, mark: 0 }]?;
    let ranges = vec![in heap; Range { low: -1, high: 1 }, Range { low: 1, high: -1 }]?;
    let Ok(first) = Marks::new(marks) else {
        return Ok(());
    };
    let Ok(second) = Ranges::new(ranges) else {
        return Ok(());
    };
    let pair = Pair::new(first, second);
    let count = pair.count();
    println!(rt; "customs: {count}")?;
    // Customs are asked by their numbers.
    for n in 0..5 {
        let wild = answer(pair.is_wildcard(n));
        let zero = answer(pair.matches(n, int(0)));
        let big = answer(pair.matches(n, head(1, 8, 0)));
        let low = answer(pair.matches(n, int(-2)));
        let text = answer(pair.matches(n, of(BuiltIn::Str, 0)));
        println!(rt; "custom {n}: wildcard {wild}, 0 {zero}, big {big}, -2 {low}, str {text}")?;
    }
    Ok(())
}

fn main(rt: HostRuntime) -> anyhow::Result<()> {
    let heap = rt.alloc();
    many_cells(rt, heap)?;
    many_parts(rt, heap)?;
    over_many(rt, heap, 65535)?;
    over_many(rt, heap, 65536)?;
    over_many(rt, heap, 65537)?;
    forms(rt, heap)?;
    puts(rt, heap)?;
    over_live(rt, heap)?;
    customs(rt, heap)?;
    Ok(())
}
