// The decisions inside brackets: how an argument begins, and what may follow it.
ghost use Rattle.std.specs.Prelude.{◌≡◌};
ghost use Rattle.grammar.specs.Machine.{after, may_close, may_comma};
ghost use Rattle.grammar.specs.Steps.{Enters, entry};

use crate::tokens::Token;
use crate::words::{Class, class_of};

// Which argument comes next: the only one, a key, a value, or a tuple's first, second or later one.
#[derive(Clone, Copy, PartialEq, Eq)]
pub enum Stage {
    Only,
    Key,
    Value,
    First,
    Second,
    Later,
}

// How an argument begins: with a closing bracket, with `...`, or as a text.
#[derive(Clone, Copy)]
pub enum Entry {
    Shut,
    Dotted,
    Plain,
}

impl Stage {
    // Whether the closing bracket may follow the argument.
    pub(crate) fn may_close(self) -> bool
        ensures { result ≡ may_close self }
    {
        !matches!(self, Stage::Key)
    }

    // Whether a comma and another argument may follow it.
    pub(crate) fn may_comma(self) -> bool
        ensures { result ≡ may_comma self }
    {
        !matches!(self, Stage::Only | Stage::Value)
    }
}

pub(crate) fn next_stage(stage: Stage) -> Stage
    ensures { result ≡ after stage }
{
    match stage {
        Stage::Key => Stage::Value,
        Stage::First => Stage::Second,
        _ => Stage::Later,
    }
}

// How the argument that begins with this token begins.
pub fn entry_of(token: Token<'_>) -> Entry
    ensures { result ≡ entry token.entry }
{
    match token {
        Token::Close => Entry::Shut,
        Token::Name(word) => match class_of(word) {
            Some(Class::Dots) => Entry::Dotted,
            _ => Entry::Plain,
        },
        _ => Entry::Plain,
    }
}

// The same where only `tuple[]` is shut at once, and the dots stand second.
pub(crate) fn entry_at(stage: Stage, token: Token<'_>) -> Entry
    ensures { Enters result stage token.entry }
{
    match stage {
        Stage::First if matches!(token, Token::Close) => Entry::Shut,
        Stage::Second if matches!(entry_of(token), Entry::Dotted) => Entry::Dotted,
        _ => Entry::Plain,
    }
}
