// The reader of annotations.
ghost use Rattle.std.specs.Prelude.{◌≡◌, ◌≤◌, IfOk, vec_capacity};
ghost use Rattle.grammar.specs.Grammar.{longest};
ghost use Rattle.typing.specs.Held.{rows_of};
ghost use Rattle.annotation.specs.Evaluated.{ReadAs};

use crate::builder::Builder;
use crate::fault::TextFault;
use grammar::text::{LONGEST, read_text};
use std::alloc::{AllocError, Global};
use typing::types::Types;

// Room for the arguments that are read and not yet used: a text has fewer of them than bytes.
#[derive(Drop)]
pub struct Reader {
    elements: Vec<usize>,
    ghost roomy: { longest ≤ vec_capacity elements },
}

impl Reader {
    // A reader with all its memory; only this call can fail for want of memory.
    pub fn new(heap: Global) -> Result<Reader, AllocError>
        ensures { IfOk result (λ s. longest ≤ vec_capacity s.elements) }
    {
        let elements = Vec::with_capacity(heap, LONGEST)?;
        Ok(Reader { elements })
    }

    // The type of a text: first its whole grammar is tested, then the type calls are made.
    pub fn read(&mut self, text: &[u8], types: &mut Types) -> Result<usize, TextFault>
        ensures { ReadAs text.now (rows_of types.old) (rows_of types.new) result }
    {
        read_text(text)?;
        self.elements.clear();
        let mut builder = Builder {
            text,
            types,
            elements: &mut self.elements,
        };
        let built = builder.text_type(0, None)?;
        Ok(built.ty)
    }
}
