#![tactic(auto)]

mod lists;

use custom::entries::Mark;
use custom::marks::Marks;
use lists::{check_cells, check_customs, head, make_cells, make_types, make_wide_types};
use matcher::alloc::TypeMatcherAlloc;
use matcher::stores::SharingStore;
use values::empty::EmptyHeap;
use values::heap::Heap;
use values::live::LiveHeap;
use values::value::Value;
use working_set::calls::Call;
use working_set::outcomes::Outcome;
use working_set::set::WorkingSet;

// The places of the store.
const PLACES: u16 = 64;

// A line for each outcome.
fn show(rt: HostRuntime, outcomes: &[Outcome]) -> anyhow::Result<()> {
    for (i, outcome) in outcomes.iter().enumerate() {
        match outcome {
            Ok(granted) => println!(rt; "{i} {granted}")?,
            Err(why) => println!(rt; "{i} refused {why}")?,
        }
    }
    Ok(())
}

// A blank set over a live heap with an int and a list of it, and calls on the set, by `perform`.
fn main(rt: HostRuntime) -> anyhow::Result<()> {
    let heap = rt.alloc();
    let mut below = LiveHeap::over(heap, EmptyHeap)?;
    let _ = below.new(head(1, 0, 7), &[]);
    let _ = below.new(head(5, 2, 0), &[Value(0)]);
    let store = SharingStore::new(heap, PLACES)?;
    let Ok(customs) = Marks::new(vec![in heap; Mark { ty: 16, mark: 5 }]?) else {
        return Ok(());
    };
    let mut set = WorkingSet::over(heap, below, store, customs)?;
    let mut calls = make_types(heap)?;
    calls.append(&mut make_cells(heap)?)?;
    calls.append(&mut check_cells(heap)?)?;
    calls.append(&mut check_customs(heap)?)?;
    calls.append(&mut make_wide_types(heap)?)?;
    let mut outcomes = Vec::with_capacity(heap, 3)?;
    if let Err(full) = set.perform(&calls, &mut outcomes) {
        println!(rt; "{full}")?;
    }
    let mut outcomes = Vec::with_capacity(heap, calls.len())?;
    if let Err(full) = set.perform(&calls, &mut outcomes) {
        println!(rt; "{full}")?;
    }
    show(rt, &outcomes)
}
