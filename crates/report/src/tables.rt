use annotation::reader::Reader;
use type_compiled::annotations::Annotations;
use typing::types::Types;

// The tables that the texts of a job are entered into. All is reserved when they are made.
#[derive(Drop)]
pub(crate) struct Tables<S> {
    pub(crate) types: Types,
    pub(crate) reader: Reader,
    pub(crate) store: S,
    pub(crate) annotations: Annotations,
}
