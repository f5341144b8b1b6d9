// The next word or mark of a text.
ghost use Rattle.std.specs.Prelude.{◌≡◌, ℕ, ◌+◌, ◌-◌, ◌<◌, ◌≤◌, true, false, [], length, slice_index, MatchOption};
ghost use Rattle.grammar.specs.Items.{is_letter_lem, role, from};
ghost use Rattle.grammar.specs.Lexed.{Starts, Next, Shuts};

use crate::fault::Fault;

// A word, with its bytes, a mark, or the end of the text.
#[derive(Clone, Copy)]
pub enum Token<'a> {
    Name(&'a [u8]),
    Bar,
    Open,
    Close,
    Comma,
    End,
}

// A token, the byte where it starts and the byte after it.
#[derive(Clone, Copy)]
pub struct Lexed<'a> {
    pub token: Token<'a>,
    pub start: usize,
    pub end: usize,
}

// Whether a byte belongs to words: it is no mark and no space.
fn is_letter(b: u8) -> bool
    ensures { result ≡ is_letter_lem (role b) }
{
    !matches!(b as char, '|' | '[' | ']' | ',' | ' ')
}

// The first byte from `at` on that is no space.
fn first_of(text: &[u8], at: usize) -> Option<usize>
    ensures { MatchOption result (from text.now at ≡ []) (Starts text.now at) }
{
    let n = text.get(at..)?.iter().position(|b| *b != b' ')?;
    Some(at + n)
}

// The end of the word that starts at `start`.
fn word_end(text: &[u8], start: usize) -> usize
    requires { start < length text.now }
    ensures within { (result ≤ length text.now) × (start < result) }
    ensures letters { (k : ℕ) → start < k → k < result → is_letter_lem (role (slice_index text.now k)) ≡ true }
    ensures stops { result < length text.now → is_letter_lem (role (slice_index text.now result)) ≡ false }
{
    match text[start + 1..].iter().position(|b| !is_letter(*b)) {
        Some(n) => start + 1 + n,
        None => text.len(),
    }
}

// A mark is one byte.
fn mark(token: Token<'_>, start: usize) -> Lexed<'_>
    requires { start < usize.MAX }
    ensures { result ≡ record { token = token.entry; start = start; end = start + 1 } }
{
    Lexed {
        token,
        start,
        end: start + 1,
    }
}

// The first token at or after the byte `at`.
pub fn next_token(text: &[u8], at: usize) -> Lexed<'_>
    ensures { Next text.now at result }
{
    let Some(start) = first_of(text, at) else {
        return Lexed {
            token: Token::End,
            start: text.len(),
            end: text.len(),
        };
    };
    match text[start] as char {
        '|' => mark(Token::Bar, start),
        '[' => mark(Token::Open, start),
        ']' => mark(Token::Close, start),
        ',' => mark(Token::Comma, start),
        _ => {
            let end = word_end(text, start);
            Lexed {
                token: Token::Name(&text[start..end]),
                start,
                end,
            }
        }
    }
}

// The byte after the closing bracket, which has to come next.
pub fn closing(text: &[u8], at: usize) -> Result<usize, Fault>
    ensures { Shuts text.now at result }
{
    let mark = next_token(text, at);
    match mark.token {
        Token::Close => Ok(mark.end),
        _ => Err(Fault { byte: mark.start }),
    }
}
