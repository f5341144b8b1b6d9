// What a run reads: the values, the nodes and a host's own tests.
#[derive(Drop)]
pub(crate) struct Setting<'a, H, S, C> {
    pub(crate) heap: &'a H,
    pub(crate) store: &'a S,
    pub(crate) customs: &'a C,
}
