use typing::types::Types;

// What types are compiled from: a table of types, and a host's customs.
#[derive(Clone, Copy)]
pub(crate) struct Compiler<'a, C> {
    pub(crate) types: &'a Types,
    pub(crate) customs: &'a C,
}
