// The second pass: the readers of a text, an alternative and its arguments make the types of a text whose grammar was tested.
ghost use Rattle.std.specs.Prelude.{◌≡◌, true, is_ok};
ghost use Rattle.typing.specs.Held.{rows_of};
ghost use Rattle.annotation.specs.Building.{Ready, SameBuilder, TextBuilt, AltBuilt, ArgsBuilt, Forth, ForthClosed};

use crate::builder::Builder;
use crate::calls::{Form, call, call_from, join};
use crate::fault::TextFault;
use grammar::fault::Fault;
use grammar::stages::{Entry, entry_of};
use grammar::tokens::{Token, closing, next_token};
use grammar::words::word_of;

// A type and the byte after its text.
#[derive(Clone, Copy)]
pub struct Built {
    pub ty: usize,
    pub end: usize,
}

// How the arguments are meant, and the byte after their closing bracket.
#[derive(Clone, Copy)]
pub struct Closed {
    pub form: Form,
    pub end: usize,
}

impl Builder<'_> {
    // A text: an alternative, joined to those before it, and while a bar follows, another.
    #[cycle(alternative_type_argument_types_text_type)]
    pub(crate) fn text_type(&mut self, at: usize, before: Option<usize>) -> Result<Built, TextFault>
        requires { Ready self.old at }
        ensures built { TextBuilt self.old.text.now at before (rows_of self.old.types.now) (rows_of self.new.types.now) result }
        ensures forth { Forth self.old.text.now at result }
        ensures kept { is_ok result ≡ true → self.new.elements.now.items ≡ self.old.elements.now.items }
        ensures same { SameBuilder self.old self.new }
    {
        let text = self.text;
        let alternative = self.alternative_type(at)?;
        let start = next_token(text, at).start;
        let ty = join(self.types, before, alternative.ty, start)?;
        let mark = next_token(text, alternative.end);
        match mark.token {
            Token::Bar => self.text_type(mark.end, Some(ty)),
            _ => Ok(Built {
                ty,
                end: alternative.end,
            }),
        }
    }

    // One alternative: its arguments first, then its own call.
    #[cycle(alternative_type_argument_types_text_type)]
    fn alternative_type(&mut self, at: usize) -> Result<Built, TextFault>
        requires { Ready self.old at }
        ensures built { AltBuilt self.old.text.now at (rows_of self.old.types.now) (rows_of self.new.types.now) result }
        ensures forth { Forth self.old.text.now at result }
        ensures kept { is_ok result ≡ true → self.new.elements.now.items ≡ self.old.elements.now.items }
        ensures same { SameBuilder self.old self.new }
    {
        let text = self.text;
        let name = next_token(text, at);
        let Token::Name(bytes) = name.token else {
            return Err(TextFault::Outside(Fault { byte: name.start }));
        };
        let Some(word) = word_of(bytes) else {
            return Err(TextFault::Outside(Fault { byte: name.start }));
        };
        let mark = next_token(text, name.end);
        let Token::Open = mark.token else {
            let ty = call(self.types, word, Form::Open, &[], name.start)?;
            return Ok(Built { ty, end: name.end });
        };
        let base = self.elements.len();
        let closed = self.argument_types(mark.end)?;
        let ty = call_from(
            self.types,
            word,
            closed.form,
            self.elements,
            base,
            name.start,
        )?;
        Ok(Built {
            ty,
            end: closed.end,
        })
    }

    // One argument, put behind the elements, and what follows up to the closing bracket.
    #[cycle(alternative_type_argument_types_text_type)]
    fn argument_types(&mut self, at: usize) -> Result<Closed, TextFault>
        requires { Ready self.old at }
        ensures built { ArgsBuilt self.old.text.now at (rows_of self.old.types.now) (rows_of self.new.types.now) self.old.elements.now.items self.new.elements.now.items result }
        ensures forth { ForthClosed self.old.text.now at result }
        ensures same { SameBuilder self.old self.new }
    {
        let text = self.text;
        let first = next_token(text, at);
        match entry_of(first.token) {
            Entry::Shut => return Ok(Closed {
                form: Form::Fixed,
                end: first.end,
            }),
            Entry::Dotted => {
                let end = closing(text, first.end)?;
                return Ok(Closed {
                    form: Form::Open,
                    end,
                });
            }
            Entry::Plain => {}
        }
        let argument = self.text_type(at, None)?;
        self.elements.push_reserved(argument.ty);
        let mark = next_token(text, argument.end);
        match mark.token {
            Token::Close => Ok(Closed {
                form: Form::Fixed,
                end: mark.end,
            }),
            Token::Comma => self.argument_types(mark.end),
            _ => Err(TextFault::Outside(Fault { byte: mark.start })),
        }
    }
}
