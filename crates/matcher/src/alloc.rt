ghost use Rattle.std.specs.Prelude.{◌≡◌, ℕ, ◌-◌, ◌≤◌, Bool, true, List, length};
ghost use Rattle.matcher.specs.Nodes.{Node, node_says, node_kid, allocated, grown, used, valid, largest};
ghost use Rattle.matcher.specs.Held.{meant};

use crate::kind::Kind;
use crate::node::Node;
use values::refusal::Refusal;

// A store of matchers: it means a list of nodes, a limit of places, and whether it shares.
pub trait TypeMatcherAlloc {
    const SHARES: bool;

    ghost SHARES: { Bool };

    ghost sharing: { Bool };

    ghost nodes: { Self → List Node };

    ghost limit: { Self → ℕ };

    fn is_sharing() -> bool
        ensures { result ≡ sharing };

    fn count(&self) -> usize
        ensures { result ≡ length (nodes self.now) };

    fn free(&self) -> usize
        ensures { result ≡ limit self.now - used (nodes self.now) };

    fn kind(&self, n: usize) -> Result<Kind, Refusal>
        ensures { result ≡ node_says (nodes self.now) n (λ d. d.kind) };

    fn number(&self, n: usize) -> Result<u16, Refusal>
        ensures { result ≡ node_says (nodes self.now) n (λ d. d.number) };

    fn kids(&self, n: usize) -> Result<usize, Refusal>
        ensures { result ≡ node_says (nodes self.now) n (λ d. length d.kids) };

    fn kid(&self, n: usize, i: usize) -> Result<usize, Refusal>
        ensures { result ≡ node_kid (nodes self.now) n i };

    fn alloc(&mut self, node: Node<'_>) -> Result<usize, Refusal>
        ensures answer { result ≡ allocated sharing (limit self.old) (nodes self.old) (meant node.entry) }
        ensures nodes { nodes self.new ≡ grown (nodes self.old) (meant node.entry) result }
        ensures limit { limit self.new ≡ limit self.old };

    ghost granted: { (s : Self) → valid (limit s) (nodes s) ≡ true };

    ghost small: { (s : Self) → limit s ≤ largest };

    ghost agrees: { SHARES ≡ sharing };
}
