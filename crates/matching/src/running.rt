// Whether a node accepts a value.
ghost use Rattle.std.specs.Prelude.{◌≡◌, [], ◌∷◌, ◌++◌};
ghost use Rattle.custom.specs.Worlds.{world};
ghost use Rattle.matcher.specs.Nodes.{deepest};
ghost use Rattle.matching.specs.Settings.{world_of};
ghost use Rattle.matching.specs.Verdicts.{verdict};
ghost use Rattle.matching.specs.Stacks.{Ready, Entered, Resumed, Sounds};

use crate::asked::Shape;
use crate::frames::{DEEPEST, Frame, Question};
use crate::setting::Setting;
use arrayvec::ArrayVec;
use custom::ty_custom::TyCustom;
use matcher::alloc::TypeMatcherAlloc;
use values::heap::Heap;
use values::refusal::Refusal;
use values::value::Value;

impl<H: Heap, S: TypeMatcherAlloc, C: TyCustom> Setting<'_, H, S, C> {
    // Begins with the node n at the value v: answers at once, or leaves a frame that waits.
    #[inline]
    fn enter(&self, n: usize, v: Value, stack: &mut ArrayVec<Frame, DEEPEST>) -> bool
        requires { Ready (world_of H.cells C.custom self.now) (S.nodes self.now.store.now) stack.old.items n v.0 }
        ensures { Entered (world_of H.cells C.custom self.now) (S.nodes self.now.store.now) stack.old.items n v.0 stack.new.items result }
    {
        let question = Question {
            node: n,
            kind: self.store.kind(n).unwrap(),
            value: v,
        };
        match self.shape(question) {
            Shape::Given(b) => b,
            Shape::Asks(quantifier, count) => {
                stack.push(Frame {
                    question,
                    quantifier,
                    places: 0..count,
                });
                quantifier.of_none()
            }
        }
    }

    // Tells the frame f what its last place said.
    #[inline]
    fn resume(&self, mut f: Frame, told: bool, stack: &mut ArrayVec<Frame, DEEPEST>) -> bool
        requires { Sounds (world_of H.cells C.custom self.now) (S.nodes self.now.store.now) deepest (stack.old.items ++ (f ∷ [])) }
        ensures { Resumed (world_of H.cells C.custom self.now) (S.nodes self.now.store.now) (stack.old.items ++ (f ∷ [])) told stack.new.items result }
    {
        if told != f.quantifier.of_none() {
            return told;
        }
        let Some(i) = f.places.next() else {
            return told;
        };
        let (kid, sub) = self.place(&f.question, i);
        stack.push(f);
        self.enter(kid, sub, stack)
    }
}

// Whether the node `root` accepts the value; refused by 2 for a missing node, then by 3 for a missing value.
pub fn run<H: Heap, S: TypeMatcherAlloc, C: TyCustom>(
    root: usize,
    value: Value,
    heap: &H,
    store: &S,
    customs: &C,
) -> Result<bool, Refusal>
    ensures { result ≡ verdict (world (H.cells heap.now) (C.custom customs.now)) (S.nodes store.now) root value.0 }
{
    if root >= store.count() {
        return Err(Refusal::NoNode);
    }
    if value.0 >= heap.count() {
        return Err(Refusal::NoValue);
    }
    let setting = Setting {
        heap,
        store,
        customs,
    };
    // A check may neither recurse nor allocate: the frames that wait lie in the stack.
    let mut stack = ArrayVec::new();
    let mut answer = setting.enter(root, value, &mut stack);
    while let Some(f) = stack.pop() {
        answer = setting.resume(f, answer, &mut stack);
    }
    Ok(answer)
}
