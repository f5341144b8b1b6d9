use values::refusal::Refusal;

// The answer to a query: whether the value is a member of the annotation, or why that can't be said.
#[derive(Clone, Copy)]
pub struct Answer {
    pub annotation: u16,
    pub value: u16,
    pub says: Result<bool, Refusal>,
}
