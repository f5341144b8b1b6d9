// A compiled annotation: its type's number, and the root of the nodes that test it.
#[derive(Clone, Copy)]
pub struct Annotation {
    pub ty: usize,
    pub root: usize,
}
