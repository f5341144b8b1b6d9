// The type call that a word stands for.
ghost use Rattle.std.specs.Prelude.{◌≡◌, ◌≤◌, length, take, drop, vec_len, vec_capacity};
ghost use Rattle.std.specs.Result.{result_map_both};
ghost use Rattle.typing.specs.Held.{rows_of};
ghost use Rattle.typing.specs.Outcomes.{Answered};
ghost use Rattle.annotation.specs.Calls.{called, part, tuple_call};
ghost use Rattle.annotation.specs.Evaluated.{state, calls, joined};
ghost use Rattle.annotation.specs.Building.{PlacedAs};

use crate::fault::Placed;
use grammar::words::Word;
use typing::types::Types;
use values::built_in::BuiltIn;
use values::refusal::Refusal;

// How a tuple's arguments are meant: these elements, or any number of the first one.
#[derive(Clone, Copy)]
pub enum Form {
    Fixed,
    Open,
}

// The numbers of the types that stand from the start.
const NEVER: usize = 0;

const ANY: usize = 1;

// The argument `i`, or Any where it is not given.
fn argument_or_any(arguments: &[usize], i: usize) -> usize
    ensures { result ≡ part arguments.now i }
{
    arguments.get(i).copied().unwrap_or(ANY)
}

fn make_tuple(types: &mut Types, form: Form, arguments: &[usize]) -> Result<usize, Refusal>
    ensures { Answered (tuple_call form arguments.now (rows_of types.old)) (rows_of types.old) (rows_of types.new) result }
{
    match form {
        Form::Fixed => types.tuple(arguments),
        Form::Open => types.tuple_of(argument_or_any(arguments, 0)),
    }
}

// The type of a word with its arguments.
pub fn make(
    types: &mut Types,
    word: Word,
    form: Form,
    arguments: &[usize],
) -> Result<usize, Refusal>
    ensures { Answered (called word form arguments.now (rows_of types.old)) (rows_of types.old) (rows_of types.new) result }
{
    match word {
        Word::Int => types.starlark_value(u16::from(BuiltIn::Int)),
        Word::Boolean => types.starlark_value(u16::from(BuiltIn::Bool)),
        Word::Str => types.starlark_value(u16::from(BuiltIn::Str)),
        Word::NoneType => types.starlark_value(u16::from(BuiltIn::NoneType)),
        Word::Kind => types.type_of_types(),
        Word::Any => Ok(ANY),
        Word::Never => Ok(NEVER),
        Word::Callable => types.callable(),
        Word::ListOf => types.list(argument_or_any(arguments, 0)),
        Word::SetOf => types.set(argument_or_any(arguments, 0)),
        Word::IterableOf => types.iter(argument_or_any(arguments, 0)),
        Word::DictOf => types.dict(argument_or_any(arguments, 0), argument_or_any(arguments, 1)),
        Word::TupleOf => make_tuple(types, form, arguments),
        Word::Host(number) => types.starlark_value(number),
        Word::Custom(number) => types.custom(number),
        Word::Ellipsis => Err(Refusal::BadForm),
    }
}

// A refused call is placed at the byte of its alternative.
fn at_byte(answer: Result<usize, Refusal>, byte: usize) -> Result<usize, Placed>
    ensures { result ≡ result_map_both (λ n. n) (λ f. record { why = f; byte = byte }) answer }
{
    answer.map_err(|why| Placed { why, byte })
}

// The call of the alternative at `byte`.
pub(crate) fn call(
    types: &mut Types,
    word: Word,
    form: Form,
    arguments: &[usize],
    byte: usize,
) -> Result<usize, Placed>
    ensures { PlacedAs (λ ps. calls word byte arguments.now form (state (rows_of types.old) ps)) (rows_of types.new) result }
{
    at_byte(make(types, word, form, arguments), byte)
}

// The same with the elements from `base` on as arguments, which are then taken off.
pub(crate) fn call_from(
    types: &mut Types,
    word: Word,
    form: Form,
    elements: &mut Vec<usize>,
    base: usize,
    byte: usize,
) -> Result<usize, Placed>
    requires { base ≤ vec_len elements.old }
    ensures answers { PlacedAs (λ ps. calls word byte (drop base elements.old.items) form (state (rows_of types.old) ps)) (rows_of types.new) result }
    ensures items { elements.new.items ≡ take base elements.old.items }
    ensures room { vec_capacity elements.new ≡ vec_capacity elements.old }
{
    let answer = call(types, word, form, &elements[base..], byte);
    elements.truncate(base);
    answer
}

// The type of the alternative at `byte`, joined to that of those before it.
pub(crate) fn join(
    types: &mut Types,
    before: Option<usize>,
    ty: usize,
    byte: usize,
) -> Result<usize, Placed>
    ensures { PlacedAs (λ ps. joined before byte (state (rows_of types.old) ps) ty) (rows_of types.new) result }
{
    match before {
        None => Ok(ty),
        Some(sooner) => at_byte(types.union2(sooner, ty), byte),
    }
}
