use type_compiled::annotations::Annotations;
use typing::types::Types;
use values::live::LiveHeap;

// One live heap over any other, one set of types, one store, its compiled annotations and one custom.
#[derive(Drop)]
pub struct WorkingSet<H, S, C> {
    pub(crate) live: LiveHeap<H>,
    pub(crate) types: Types,
    pub(crate) store: S,
    pub(crate) annotations: Annotations,
    pub(crate) customs: C,
}
