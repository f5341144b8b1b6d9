ghost use Rattle.std.specs.Prelude.{◌≡◌, ◌+◌, ◌-◌, ◌<◌, ◌≤◌, ◌&&◌, nat_lt, true, [], ◌∷◌, ◌++◌, length, IfOk, MatchResult, MatchOption, Some, None, vec_len, slice_index, slice_index_or};
ghost use Rattle.matcher.specs.Tables.{kids_of, row_says};
ghost use Rattle.matcher.specs.Held.{nodes_in, meant};
ghost use Rattle.matcher.specs.Nodes.{node_at_lem, fault, roomy, all_below, depth_over, depths, find, same_node, place, used, allocated, grown};
ghost use Rattle.values.specs.declared.refusal.Refusal.TheVariants.{NoNode};

use crate::node::Node;
use crate::rows::{Row, Table};
use std::alloc::{AllocError, Global};
use values::refusal::Refusal;

// The greatest depth of a node.
const DEEPEST: u8 = 64;

// The most kids of a node.
const WIDEST: usize = 64;

impl Table {
    #[tactic(auto, unfolding(crate::specs::Tables::nodes_of, crate::specs::Nodes::valid, crate::specs::Nodes::depths))]
    pub(crate) fn new(heap: Global, limit: u16) -> Result<Table, AllocError>
        ensures { IfOk result (λ t. (nodes_in t ≡ []) × (t.limit ≡ limit)) }
    {
        let limit = limit as usize;
        let rows = Vec::with_capacity(heap, limit)?;
        let pool = Vec::with_capacity(heap, limit)?;
        Ok(Table { rows, pool, limit })
    }

    #[tactic(auto, using(crate::proofs::Flats::long))]
    pub(crate) fn count(&self) -> usize
        ensures { result ≡ length (nodes_in self.now) }
    {
        self.rows.len()
    }

    // The row of a node.
    #[inline]
    fn row(&self, n: usize) -> Result<Row, Refusal>
        ensures { result ≡ row_says self.now.rows.items n (λ x. x) }
    {
        self.rows.get(n).copied().ok_or(Refusal::NoNode)
    }

    // The kids of a row.
    #[inline]
    fn kids(&self, row: Row) -> &[usize]
        requires { row.first + row.count ≤ vec_len self.now.pool }
        ensures { result.now ≡ kids_of self.now.pool.items row }
    {
        &self.pool[row.first..row.first + row.count]
    }

    // The node n.
    #[inline]
    pub(crate) fn node(&self, n: usize) -> Result<Node<'_>, Refusal>
        ensures { MatchResult result (λ d. (n < length (nodes_in self.now)) × (meant d ≡ node_at_lem (nodes_in self.now) n)) (λ e. (length (nodes_in self.now) ≤ n) × (e ≡ NoNode)) }
    {
        let row = self.row(n)?;
        Ok(Node {
            kind: row.kind,
            number: row.number,
            kids: self.kids(row),
        })
    }

    // The depth of a node, or 0.
    fn depth_at(&self, n: usize) -> u8
        ensures { result ≡ slice_index (depths (nodes_in self.now)) n }
    {
        self.rows.get(n).map_or(0, |row| row.depth)
    }

    // One more than the depth of the deepest kid.
    fn depth_over(&self, kids: &[usize]) -> u8
        ensures { result ≡ depth_over (depths (nodes_in self.now)) kids.now }
    {
        kids.iter().map(|k| self.depth_at(*k)).max().unwrap_or(0) + 1
    }

    // The first reason, other than room, why a node can't be added.
    #[tactic(auto, unfolding(crate::specs::Nodes::fault))]
    fn check(&self, node: Node<'_>) -> Result<(), Refusal>
        ensures { MatchResult result (λ _. fault (nodes_in self.now) (meant node.entry) ≡ None) (λ e. fault (nodes_in self.now) (meant node.entry) ≡ Some e) }
    {
        if !node.is_over(self.count()) {
            return Err(Refusal::NoNode);
        }
        if !node.is_formed() {
            return Err(Refusal::BadForm);
        }
        if self.depth_over(node.kids) > DEEPEST {
            return Err(Refusal::TooDeep);
        }
        if node.kids.len() > WIDEST {
            return Err(Refusal::TooWide);
        }
        Ok(())
    }

    // Whether the node n is equal to a node.
    fn is_node(&self, n: usize, node: Node<'_>) -> bool
        ensures { result ≡ (nat_lt n (length (nodes_in self.now)) && same_node (node_at_lem (nodes_in self.now) n) (meant node.entry)) }
    {
        self.node(n) == Ok(node)
    }

    // The lowest equal node, where the store shares.
    #[tactic(auto, unfolding(crate::specs::Nodes::place))]
    fn standing(&self, shares: bool, node: Node<'_>) -> Option<usize>
        ensures { MatchOption result (place shares (nodes_in self.now) (meant node.entry) ≡ length (nodes_in self.now)) (λ n. (n < length (nodes_in self.now)) × (n ≡ place shares (nodes_in self.now) (meant node.entry))) }
    {
        if shares {
            (0..self.count()).position(|n| self.is_node(n, node))
        } else {
            None
        }
    }

    // The places that are not taken.
    pub(crate) fn free_places(&self) -> usize
        ensures { result ≡ self.now.limit - used (nodes_in self.now) }
    {
        self.limit.saturating_sub(self.rows.len() + self.pool.len())
    }

    // Adds a node that can be added.
    fn add(&mut self, node: Node<'_>) -> usize
        requires fine { fault (nodes_in self.old) (meant node) ≡ None }
        requires room { roomy self.old.limit (nodes_in self.old) (meant node) ≡ true }
        ensures number { result ≡ length (nodes_in self.old) }
        ensures nodes { nodes_in self.new ≡ nodes_in self.old ++ meant node.entry ∷ [] }
        ensures limit { self.new.limit ≡ self.old.limit }
    {
        let n = self.rows.len();
        let first = self.pool.len();
        let row = Row {
            kind: node.kind,
            number: node.number,
            depth: self.depth_over(node.kids),
            first,
            count: node.kids.len(),
        };
        self.pool.extend_from_slice(node.kids).unwrap();
        self.rows.push_reserved(row);
        n
    }

    // Answers the node that stands or is added, or the first reason why it can't be.
    #[tactic(auto, unfolding(crate::specs::Nodes::allocated))]
    pub(crate) fn alloc(&mut self, shares: bool, node: Node<'_>) -> Result<usize, Refusal>
        ensures answer { result ≡ allocated shares self.old.limit (nodes_in self.old) (meant node.entry) }
        ensures nodes { nodes_in self.new ≡ grown (nodes_in self.old) (meant node.entry) result }
        ensures limit { self.new.limit ≡ self.old.limit }
    {
        self.check(node)?;
        if let Some(n) = self.standing(shares, node) {
            return Ok(n);
        }
        if self.free_places() < 1 + node.kids.len() {
            return Err(Refusal::NoRoom);
        }
        Ok(self.add(node))
    }
}
