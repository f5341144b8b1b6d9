// The whole text of an annotation.
ghost use Rattle.std.specs.Prelude.{◌≡◌, MatchResult};
ghost use Rattle.grammar.specs.Grammar.{Accepted, FaultAt, OneFault, Faultless};

use crate::fault::Fault;
use crate::readers::text_reader;
use crate::tokens::{Token, next_token};

// The most bytes that a text may have.
pub const LONGEST: usize = 4096;

// Accepts just the valid texts; of any other it answers the fault.
pub fn read_text(text: &[u8]) -> Result<(), Fault>
    ensures { MatchResult result (λ _. Accepted text.now) (λ f. FaultAt text.now f.byte) }
{
    if text.len() > LONGEST {
        return Err(Fault { byte: LONGEST });
    }
    let end = text_reader(text, 0)?;
    let last = next_token(text, end);
    match last.token {
        Token::End => Ok(()),
        _ => Err(Fault { byte: last.start }),
    }
}

// The definition of a fault names at most one byte of a text, and none of a text that is accepted.
pub fn faults_are_pinned()
    ensures once { OneFault }
    ensures never { Faultless }
{}
