// Where a text goes wrong.

// The byte of the fault.
#[derive(Clone, Copy, Debug, PartialEq, Eq)]
pub struct Fault {
    pub byte: usize,
}
