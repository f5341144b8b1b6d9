use crate::asked::Quantifier;
use matcher::kind::Kind;
use std::ops::Range;
use values::value::Value;

// The greatest depth of a node, and so the most frames that wait.
pub(crate) const DEEPEST: usize = 64;

// A node, with its kind, that is asked of a value.
#[derive(Clone, Copy)]
pub(crate) struct Question {
    pub(crate) node: usize,
    pub(crate) kind: Kind,
    pub(crate) value: Value,
}

// A question that waits: the places that it still has to ask.
#[derive(Drop)]
pub(crate) struct Frame {
    pub(crate) question: Question,
    pub(crate) quantifier: Quantifier,
    pub(crate) places: Range<usize>,
}

// What a free place of a stack holds.
impl Default for Frame {
    fn default() -> Frame {
        Frame {
            question: Question {
                node: 0,
                kind: Kind::IsNever,
                value: Value(0),
            },
            quantifier: Quantifier::Every,
            places: 0..0,
        }
    }
}
