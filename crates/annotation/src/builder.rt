// What the readers of the second pass share.
ghost use Rattle.std.specs.Prelude.{◌≤◌, length, vec_capacity};
ghost use Rattle.grammar.specs.Grammar.{longest};

use typing::types::Types;

// The text, the table that takes its types, and the arguments that are read and not yet used: a text has fewer of them than bytes.
#[derive(Drop)]
pub(crate) struct Builder<'a> {
    pub(crate) text: &'a [u8],
    pub(crate) types: &'a mut Types,
    pub(crate) elements: &'a mut Vec<usize>,
    ghost short: { length text.now ≤ longest },
    ghost roomy: { longest ≤ vec_capacity elements.now },
}
