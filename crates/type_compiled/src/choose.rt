// The nodes that steps write.
ghost use Rattle.std.specs.Prelude.{◌≡◌};
ghost use Rattle.matcher.specs.Held.{meant};
ghost use Rattle.compiling.specs.Code.{chosen, Can, Wrote, takes};
ghost use Rattle.compiling.specs.Written.{wildcard, some_wildcard, every_wildcard};

use compiling::tasks::Op;
use matcher::alloc::TypeMatcherAlloc;
use matcher::kind::Kind;
use matcher::node::Node;

fn is_wildcard<S: TypeMatcherAlloc>(store: &S, k: usize) -> bool
    ensures { result ≡ wildcard (S.nodes store.now) k }
{
    matches!(store.kind(k), Ok(Kind::IsAny))
}

fn every_is_wildcard<S: TypeMatcherAlloc>(store: &S, kids: &[usize]) -> bool
    ensures { result ≡ every_wildcard (S.nodes store.now) kids.now }
{
    kids.iter().all(|k| is_wildcard(store, *k))
}

fn some_is_wildcard<S: TypeMatcherAlloc>(store: &S, kids: &[usize]) -> bool
    ensures { result ≡ some_wildcard (S.nodes store.now) kids.now }
{
    kids.iter().any(|k| is_wildcard(store, *k))
}

// How many results a step takes.
pub(crate) fn takes(op: Op) -> usize
    ensures { result ≡ takes op }
{
    match op {
        Op::Write(_, _, n) | Op::AnyOf(n) => n,
        Op::ListOf | Op::SetOf => 1,
        Op::DictOf | Op::AnyOfTwo => 2,
    }
}

// The node of a step over its kids. A list, a set or a dict of wildcards is one of anything, and a dict keeps a
// lone wildcard; a union with a wildcard side is a wildcard.
fn chosen<'a, S: TypeMatcherAlloc>(store: &S, op: Op, kids: &'a [usize]) -> Node<'a>
    ensures { meant result ≡ chosen op (S.nodes store.now) kids.now }
{
    let (is_open, bare, over) = match op {
        Op::Write(kind, number, _) => return Node { kind, number, kids },
        Op::ListOf => (every_is_wildcard(store, kids), Kind::IsList, Kind::IsListOf),
        Op::SetOf => (every_is_wildcard(store, kids), Kind::IsSet, Kind::IsSetOf),
        Op::DictOf => (every_is_wildcard(store, kids), Kind::IsDict, Kind::IsDictOf),
        Op::AnyOfTwo => (some_is_wildcard(store, kids), Kind::IsAny, Kind::IsAnyOfTwo),
        Op::AnyOf(_) => (some_is_wildcard(store, kids), Kind::IsAny, Kind::IsAnyOf),
    };
    if is_open {
        Node {
            kind: bare,
            number: 0,
            kids: &[],
        }
    } else {
        Node {
            kind: over,
            number: 0,
            kids,
        }
    }
}

// Writes the node of a step over its kids, where it can be written.
pub(crate) fn write_op<S: TypeMatcherAlloc>(store: &mut S, op: Op, kids: &[usize]) -> usize
    requires { Can (S.limit store.old) (S.nodes store.old) (chosen op (S.nodes store.old) kids.now) }
    ensures wrote { Wrote S.sharing (S.nodes store.old) (chosen op (S.nodes store.old) kids.now) result (S.nodes store.new) }
    ensures limit { S.limit store.new ≡ S.limit store.old }
{
    let node = chosen(store, op, kids);
    store.alloc(node).unwrap()
}
