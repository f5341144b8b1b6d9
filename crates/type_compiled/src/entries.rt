// The calls and questions on compiled annotations.
ghost use Rattle.std.specs.Prelude.{◌≡◌, ◌<◌, [], ◌∷◌, ◌++◌, length, IfOk, nat_le};
ghost use Rattle.compiling.specs.Limits.{most_annotations};
ghost use Rattle.compiling.specs.Outcomes.{annotation as entry_of};
ghost use Rattle.type_compiled.specs.Compiled.{annotations_of, annotation_says};

use crate::annotations::{Annotations, TypeCompiled};
use crate::scratch::Scratch;
use compiling::annotation::Annotation;
use std::alloc::{AllocError, Global};
use values::refusal::Refusal;

// The most compiled annotations.
const MOST_ANNOTATIONS: usize = 256;

impl Annotations {
    // No annotation yet. The only call that can fail for want of memory.
    pub fn new(heap: Global) -> Result<Annotations, AllocError>
        ensures { IfOk result (λ s. annotations_of s ≡ []) }
    {
        let list = Vec::with_capacity(heap, MOST_ANNOTATIONS)?;
        let scratch = Scratch::new(heap)?;
        Ok(Annotations { list, scratch })
    }

    // How many annotations there are.
    pub fn count(&self) -> usize
        ensures { result ≡ length (annotations_of self.now) }
    {
        self.list.len()
    }

    fn entry(&self, a: TypeCompiled) -> Result<Annotation, Refusal>
        ensures { result ≡ annotation_says (annotations_of self.now) a.0 (λ x. x) }
    {
        self.list.get(a.0).copied().ok_or(Refusal::NoNode)
    }

    // The type of an annotation.
    pub fn ty(&self, a: TypeCompiled) -> Result<usize, Refusal>
        ensures { result ≡ annotation_says (annotations_of self.now) a.0 (λ x. x.ty) }
    {
        self.entry(a).map(|x| x.ty)
    }

    // The root of an annotation's nodes.
    pub fn root(&self, a: TypeCompiled) -> Result<usize, Refusal>
        ensures { result ≡ annotation_says (annotations_of self.now) a.0 (λ x. x.root) }
    {
        self.entry(a).map(|x| x.root)
    }

    // Whether there are as many as there may be.
    pub(crate) fn is_full(&self) -> bool
        ensures { result ≡ nat_le most_annotations (length (annotations_of self.now)) }
    {
        self.count() >= MOST_ANNOTATIONS
    }

    // Adds an annotation where there is a place.
    pub(crate) fn enter(&mut self, ty: usize, root: usize) -> TypeCompiled
        requires { length (annotations_of self.old) < most_annotations }
        ensures list { annotations_of self.new ≡ annotations_of self.old ++ entry_of ty root ∷ [] }
        ensures number { result.0 ≡ length (annotations_of self.old) }
    {
        let number = self.count();
        self.list.push_reserved(Annotation { ty, root });
        TypeCompiled(number)
    }
}
