// The two stores: one type, told apart by whether it shares.
ghost use Rattle.std.specs.Prelude.{◌≡◌, [], IfOk};
ghost use Rattle.matcher.specs.Held.{store_nodes, store_limit};
ghost use Rattle.std.proofs.Common.{rules};

use crate::alloc::TypeMatcherAlloc;
use crate::kind::Kind;
use crate::node::Node;
use crate::rows::Table;
use std::alloc::{AllocError, Global};
use values::refusal::Refusal;

#[derive(Drop)]
pub struct Store<const SHARES: bool> {
    pub(crate) table: Table,
}

// A store that never shares: each node that is added is a new one.
pub type PlainStore = Store<false>;

// A store that shares: equal nodes are one.
pub type SharingStore = Store<true>;

impl<const SHARES: bool> Store<SHARES> {
    // A store with no nodes and so many places; only this call can fail for want of memory.
    pub fn new(heap: Global, limit: u16) -> Result<Self, AllocError>
        ensures { IfOk result (λ s. (store_nodes s ≡ []) × (store_limit s ≡ limit)) }
    {
        let table = Table::new(heap, limit)?;
        Ok(Store { table })
    }
}

impl<const SHARES: bool> TypeMatcherAlloc for Store<SHARES> {
    const SHARES: bool = SHARES;

    ghost SHARES = { SHARES };

    ghost sharing = { SHARES };

    ghost nodes = { λ s. store_nodes s };

    ghost limit = { λ s. store_limit s };

    ghost granted = { Prim.search rules };

    ghost small = { Prim.search rules };

    ghost agrees = { Prim.search rules };

    fn is_sharing() -> bool {
        Self::SHARES
    }

    fn count(&self) -> usize {
        self.table.count()
    }

    fn free(&self) -> usize {
        self.table.free_places()
    }

    #[inline]
    fn kind(&self, n: usize) -> Result<Kind, Refusal> {
        Ok(self.table.node(n)?.kind)
    }

    #[inline]
    fn number(&self, n: usize) -> Result<u16, Refusal> {
        Ok(self.table.node(n)?.number)
    }

    #[inline]
    fn kids(&self, n: usize) -> Result<usize, Refusal> {
        Ok(self.table.node(n)?.kids.len())
    }

    #[inline]
    fn kid(&self, n: usize, i: usize) -> Result<usize, Refusal> {
        self.table
            .node(n)?
            .kids
            .get(i)
            .copied()
            .ok_or(Refusal::NoNode)
    }

    fn alloc(&mut self, node: Node<'_>) -> Result<usize, Refusal> {
        self.table.alloc(Self::SHARES, node)
    }
}
