ghost use Rattle.std.specs.Prelude.{◌≡◌, ◌<◌, ◌≤◌, replicate, MatchOption};
ghost use Rattle.values.specs.Held.{none_cell};
ghost use Rattle.std.proofs.Common.{arith};
ghost use Rattle.heap_limits.specs.Alike.{count_is, all_formed};
ghost use Rattle.heap_limits.specs.Alike;

use values::head::Head;
use values::heap::Heap;
use values::refusal::Refusal;
use values::value::Value;

// The most cells that a heap has.
const MOST: usize = 65536;

// A constant makes no call, so None's number stands here.
const NONE: Head = Head {
    ty: 3,
    flags: 0,
    mark: 0,
};

// A heap of so many None cells, to stand below a live heap.
#[derive(Drop)]
pub struct Nones {
    count: usize,
    ghost few: { count ≤ 65536 },
}

impl Nones {
    pub fn new(count: usize) -> Option<Nones>
        ensures { MatchOption result (65536 < count) (λ s. s.count ≡ count) }
    {
        if count > MOST {
            None
        } else {
            Some(Nones { count })
        }
    }
}

impl Heap for Nones {
    ghost cells = { λ s. replicate s.count none_cell };

    ghost closed = { λ s. Alike.closed s.count };

    ghost few = { λ s. omega (arith, count_is s.count, s.few) };

    ghost formed = { λ s. all_formed s.count };

    fn count(&self) -> usize {
        self.count
    }

    fn head(&self, v: Value) -> Result<Head, Refusal> {
        if v.0 < self.count {
            Ok(NONE)
        } else {
            Err(Refusal::NoValue)
        }
    }

    fn len(&self, v: Value) -> Result<usize, Refusal> {
        if v.0 < self.count {
            Ok(0)
        } else {
            Err(Refusal::NoValue)
        }
    }

    fn part(&self, _v: Value, _i: usize) -> Result<Value, Refusal> {
        Err(Refusal::NoValue)
    }
}
