// The words that the grammar knows, and how they are told.
ghost use Rattle.std.specs.Prelude.{◌≡◌, ◌+◌, ◌-◌, ◌*◌, ◌==◌, ◌&&◌, ◌||◌, cond, nat_le, Some, None, map, slice_index};
ghost use Rattle.std.specs.Char.{is_ascii_digit};
ghost use Rattle.grammar.specs.Names.{row, takes};
ghost use Rattle.grammar.specs.Machine.{zero_first_lem, number, numbered, look_up, known, class};

// A name of the grammar, or the three dots.
#[derive(Clone, Copy)]
pub enum Word {
    Int,
    Boolean,
    Str,
    NoneType,
    Kind,
    Any,
    Never,
    Callable,
    ListOf,
    SetOf,
    IterableOf,
    DictOf,
    TupleOf,
    Host(u16),
    Custom(u16),
    Ellipsis,
}

// What may follow a word: no argument, one, two, any number; or it is the dots.
#[derive(Clone, Copy, PartialEq, Eq)]
pub enum Class {
    Bare,
    One,
    Two,
    Many,
    Dots,
}

// A sign or a needless zero in front.
fn is_padded(digits: &[u8]) -> bool
    ensures { result ≡ (slice_index digits.now 0 == 43 || zero_first_lem digits.now) }
{
    matches!(digits, [b'+', ..] | [b'0', _, ..])
}

// The most digits that the number of a name has.
const DIGITS: usize = 5;

// The number with one digit more behind it, if it is one of 16 bits then.
fn with_digit(n: u16, digit: u8) -> Option<u16>
    ensures { result ≡ cond (is_ascii_digit digit && nat_le (10 * n + (digit - 48)) 65535) (Some (10 * n + (digit - 48))) None }
{
    if !digit.is_ascii_digit() {
        return None;
    }
    u16::try_from(10 * u32::from(n) + u32::from(digit - b'0')).ok()
}

// The number of a name, as it is written: in decimal, with no sign and no zero in front.
fn number_of(digits: &[u8]) -> Option<u16>
    ensures { result ≡ number digits.now }
{
    if is_padded(digits) {
        return None;
    }
    if digits.is_empty() || digits.len() > DIGITS {
        return None;
    }
    digits.iter().fold(Some(0), |n, b| with_digit(n?, *b))
}

// host.N and custom.N.
fn numbered_word(word: &[u8]) -> Option<Word>
    ensures { result ≡ numbered word.now }
{
    if let Some(digits) = word.strip_prefix(b"host.") {
        return number_of(digits).map(Word::Host);
    }
    let digits = word.strip_prefix(b"custom.")?;
    number_of(digits).map(Word::Custom)
}

// The words that are spelled in one way.
const SPELLED: [(&[u8], Word); 14] = [
    (b"int", Word::Int),
    (b"bool", Word::Boolean),
    (b"str", Word::Str),
    (b"None", Word::NoneType),
    (b"type", Word::Kind),
    (b"typing.Any", Word::Any),
    (b"typing.Never", Word::Never),
    (b"typing.Callable", Word::Callable),
    (b"list", Word::ListOf),
    (b"set", Word::SetOf),
    (b"typing.Iterable", Word::IterableOf),
    (b"dict", Word::DictOf),
    (b"tuple", Word::TupleOf),
    (b"...", Word::Ellipsis),
];

// The word that is spelled so in one of these rows.
fn spelled_word(rows: &[(&[u8], Word)], word: &[u8]) -> Option<Word>
    ensures { result ≡ look_up word.now (map (λ p. row p.0.now p.1) rows.now) None }
{
    let (_, known) = rows.iter().find(|(spelled, _)| word == *spelled)?;
    Some(*known)
}

// The word that these bytes are, if the grammar has it.
pub fn word_of(word: &[u8]) -> Option<Word>
    ensures { result ≡ known word.now }
{
    numbered_word(word).or_else(|| spelled_word(&SPELLED, word))
}

impl Word {
    pub fn class(self) -> Class
        ensures { result ≡ takes self }
    {
        match self {
            Word::Int | Word::Boolean | Word::Str | Word::NoneType | Word::Kind => Class::Bare,
            Word::Any | Word::Never | Word::Callable => Class::Bare,
            Word::Host(_) | Word::Custom(_) => Class::Bare,
            Word::ListOf | Word::SetOf | Word::IterableOf => Class::One,
            Word::DictOf => Class::Two,
            Word::TupleOf => Class::Many,
            Word::Ellipsis => Class::Dots,
        }
    }
}

// What may follow the word that these bytes are, if the grammar has it.
pub fn class_of(word: &[u8]) -> Option<Class>
    ensures { result ≡ class word.now }
{
    word_of(word).map(Word::class)
}
