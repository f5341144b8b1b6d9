// The readers of a text, an alternative and an argument. Each answers the byte after what it read, or the fault.
// The text and the byte stay two parameters: only the byte moves, and a cursor of both would hand the text back in every answer.
ghost use Rattle.std.specs.Prelude.{◌≡◌, ◌≤◌, length};
ghost use Rattle.grammar.specs.Machine.{txt, arg, Reader, AltReader};

use crate::fault::Fault;
use crate::stages::{Entry, Stage, entry_at, next_stage};
use crate::tokens::{Token, closing, next_token};
use crate::words::{Class, class_of};

// A text: an alternative, and while a bar follows, another.
#[cycle(alternative_argument_text_reader)]
pub(crate) fn text_reader(text: &[u8], at: usize) -> Result<usize, Fault>
    requires { at ≤ length text.now }
    ensures { Reader text.now at txt result }
{
    let end = alternative(text, at)?;
    let mark = next_token(text, end);
    match mark.token {
        Token::Bar => text_reader(text, mark.end),
        _ => Ok(end),
    }
}

// One alternative: a name, and its arguments if a bracket follows.
#[cycle(alternative_argument_text_reader)]
fn alternative(text: &[u8], at: usize) -> Result<usize, Fault>
    requires { at ≤ length text.now }
    ensures { AltReader text.now at result }
{
    let name = next_token(text, at);
    let Token::Name(word) = name.token else {
        return Err(Fault { byte: name.start });
    };
    let stage = match class_of(word) {
        Some(Class::Bare) => return Ok(name.end),
        Some(Class::One) => Stage::Only,
        Some(Class::Two) => Stage::Key,
        Some(Class::Many) => Stage::First,
        Some(Class::Dots) | None => return Err(Fault { byte: name.start }),
    };
    let mark = next_token(text, name.end);
    match mark.token {
        Token::Open => argument(text, mark.end, stage),
        _ => Ok(name.end),
    }
}

// One argument, and what follows up to the closing bracket.
#[cycle(alternative_argument_text_reader)]
fn argument(text: &[u8], at: usize, stage: Stage) -> Result<usize, Fault>
    requires { at ≤ length text.now }
    ensures { Reader text.now at (arg stage) result }
{
    let first = next_token(text, at);
    match entry_at(stage, first.token) {
        Entry::Shut => return Ok(first.end),
        Entry::Dotted => return closing(text, first.end),
        Entry::Plain => {}
    }
    let end = text_reader(text, at)?;
    let mark = next_token(text, end);
    match mark.token {
        Token::Close if stage.may_close() => Ok(mark.end),
        Token::Comma if stage.may_comma() => argument(text, mark.end, next_stage(stage)),
        _ => Err(Fault { byte: mark.start }),
    }
}
