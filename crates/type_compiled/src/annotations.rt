ghost use Rattle.std.specs.Prelude.{◌≤◌, vec_len, vec_capacity};
ghost use Rattle.compiling.specs.Limits.{most_annotations};

use crate::scratch::Scratch;
use compiling::annotation::Annotation;

// The number of a compiled annotation, from 0.
#[derive(Clone, Copy, PartialEq, Eq, Debug)]
pub struct TypeCompiled(pub usize);

// The compiled annotations, and the stacks that compiling uses. All is reserved when it is made.
#[derive(Drop)]
pub struct Annotations {
    pub(crate) list: Vec<Annotation>,
    pub(crate) scratch: Scratch,
    ghost few: { vec_len list ≤ most_annotations },
    ghost forlist: { most_annotations ≤ vec_capacity list },
}
