// A heap, a store and customs, and rows of answers.
use crate::cells::fill;
use anyhow::anyhow;
use custom::entries::{Mark, Range};
use custom::marks::Marks;
use custom::pair::Pair;
use custom::ranges::Ranges;
use custom::ty_custom::TyCustom;
use matcher::alloc::TypeMatcherAlloc;
use matcher::kind::Kind;
use matcher::node::Node;
use matcher::stores::PlainStore;
use matching::running::run;
use std::alloc::Global;
use std::fmt::Display;
use values::empty::EmptyHeap;
use values::heap::Heap;
use values::live::LiveHeap;
use values::refusal::Refusal;
use values::value::Value;

#[derive(Drop)]
pub(crate) struct Bench {
    live: LiveHeap<EmptyHeap>,
    store: PlainStore,
    customs: Pair<Marks, Ranges>,
}

// A node without kids.
pub(crate) fn leaf(kind: Kind, number: u16) -> Node<'static> {
    Node {
        kind,
        number,
        kids: &[],
    }
}

// A node with kids.
pub(crate) fn over(kind: Kind, kids: &[usize]) -> Node<'_> {
    Node {
        kind,
        number: 0,
        kids,
    }
}

// What was answered, or why not.
pub(crate) fn say<T: Display + Drop>(
    rt: HostRuntime,
    name: &str,
    r: Result<T, Refusal>,
) -> anyhow::Result<()> {
    match r {
        Ok(x) => println!(rt; "{name}: {x}")?,
        Err(why) => println!(rt; "{name}: refused {why}")?,
    }
    Ok(())
}

// A run's answer.
pub(crate) fn tell(rt: HostRuntime, name: &str, r: Result<bool, Refusal>) -> anyhow::Result<()> {
    say(rt, name, r.map(|yes| if yes { "yes" } else { "no" }))
}

fn refused(why: Refusal) -> anyhow::Error {
    anyhow!("refused {why}")
}

// 0 says yes to type 16 with mark 5, 1 is a wildcard, 2 says yes to the ints from 0 to 10.
pub(crate) fn customs(heap: Global) -> anyhow::Result<Pair<Marks, Ranges>> {
    let mut marks = Vec::new(heap);
    marks.push(Mark { ty: 16, mark: 5 })?;
    marks.push(Mark { ty: 0, mark: 0 })?;
    let mut ranges = Vec::new(heap);
    ranges.push(Range { low: 0, high: 10 })?;
    let marks = Marks::new(marks).map_err(refused)?;
    let ranges = Ranges::new(ranges).map_err(refused)?;
    Ok(Pair::new(marks, ranges))
}

// A bench with the values 0 to 24 and no nodes.
pub(crate) fn open(rt: HostRuntime) -> anyhow::Result<Bench> {
    let heap = rt.alloc();
    let mut live = LiveHeap::over(heap, EmptyHeap)?;
    fill(&mut live);
    let store = PlainStore::new(heap, 1000)?;
    let customs = customs(heap)?;
    Ok(Bench {
        live,
        store,
        customs,
    })
}

impl Bench {
    // Adds a node and writes which values it accepts.
    pub(crate) fn row(
        &mut self,
        rt: HostRuntime,
        name: &str,
        node: Node<'_>,
    ) -> anyhow::Result<usize> {
        let n = self.store.alloc(node).unwrap_or(self.store.count());
        print!(rt; "{name}:")?;
        for v in 0..self.live.count() {
            match run(n, Value(v), &self.live, &self.store, &self.customs) {
                Ok(true) => print!(rt; " {v}")?,
                Ok(false) => {}
                Err(_) => print!(rt; " refused")?,
            }
        }
        println!(rt; "")?;
        Ok(n)
    }

    // The same, named by its kind.
    pub(crate) fn kind(&mut self, rt: HostRuntime, kind: Kind) -> anyhow::Result<usize> {
        let name = format!(in rt.alloc(); "{kind:?}")?;
        self.row(rt, name.as_str(), leaf(kind, 0))
    }
}
