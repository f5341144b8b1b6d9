use type_compiled::annotations::TypeCompiled;
use values::head::Head;
use values::value::Value;

// A call on a working set. Types are named by their numbers.
#[derive(Drop)]
pub enum Call {
    // A new cell: its head and its parts.
    New(Head, Vec<Value>),
    // Sets the part of a value at a place.
    Put {
        value: Value,
        place: usize,
        part: Value,
    },
    Freeze,
    StarlarkValue(u16),
    Iter(usize),
    Callable,
    TypeOfTypes,
    List(usize),
    Tuple(Vec<usize>),
    TupleOf(usize),
    Dict {
        key: usize,
        value: usize,
    },
    Custom(u16),
    Set(usize),
    Union2(usize, usize),
    AllocTy(usize),
    Check(TypeCompiled, Value),
}
