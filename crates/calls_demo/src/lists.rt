// Lists of calls.
use std::alloc::{AllocError, Global};
use type_compiled::annotations::TypeCompiled;
use values::head::Head;
use values::value::Value;
use working_set::calls::Call;

// A type number, flags and a mark.
pub(crate) fn head(ty: u16, flags: u8, mark: i64) -> Head {
    Head { ty, flags, mark }
}

// int is 2, str 3, list[int] 4, list[str] 5, int | str 6, list[int | str] 7.
pub(crate) fn make_types(heap: Global) -> Result<Vec<Call>, AllocError> {
    Ok(vec![in heap;
        Call::StarlarkValue(1),
        Call::StarlarkValue(4),
        Call::StarlarkValue(9),
        Call::List(2),
        Call::List(3),
        Call::List(9),
        Call::Union2(4, 5),
        Call::Union2(2, 3),
        Call::Union2(2, 20),
        Call::AllocTy(4),
        Call::AllocTy(7),
        Call::AllocTy(30),
    ]?)
}

// An int 2, a str 3, the lists [2] 4 and [2, 3] 5.
pub(crate) fn make_cells(heap: Global) -> Result<Vec<Call>, AllocError> {
    Ok(vec![in heap;
        Call::New(head(1, 0, -3), Vec::new(heap)),
        Call::New(head(4, 0, 0), Vec::new(heap)),
        Call::New(head(5, 2, 0), vec![in heap; Value(2)]?),
        Call::New(head(5, 2, 0), vec![in heap; Value(2), Value(3)]?),
        Call::New(head(5, 2, 0), vec![in heap; Value(6)]?),
        Call::New(head(6, 2, 0), vec![in heap; Value(2)]?),
        Call::New(head(9, 0, 0), Vec::new(heap)),
        Call::Check(TypeCompiled(0), Value(4)),
        Call::Check(TypeCompiled(0), Value(5)),
        Call::Check(TypeCompiled(1), Value(5)),
        Call::Check(TypeCompiled(0), Value(1)),
        Call::Check(TypeCompiled(2), Value(4)),
        Call::Check(TypeCompiled(0), Value(6)),
    ]?)
}

fn put(value: usize, place: usize, part: usize) -> Call {
    Call::Put {
        value: Value(value),
        place,
        part: Value(part),
    }
}

// Changes before and after a freeze, and a list that holds itself.
pub(crate) fn check_cells(heap: Global) -> Result<Vec<Call>, AllocError> {
    Ok(vec![in heap;
        put(4, 0, 3),
        Call::Check(TypeCompiled(0), Value(4)),
        Call::Check(TypeCompiled(1), Value(4)),
        put(1, 0, 2),
        put(4, 1, 2),
        Call::New(head(8, 2, 0), vec![in heap; Value(2), Value(4)]?),
        put(6, 0, 3),
        Call::Freeze,
        put(4, 0, 2),
        Call::Check(TypeCompiled(0), Value(4)),
        Call::New(head(5, 2, 0), vec![in heap; Value(2)]?),
        Call::Check(TypeCompiled(0), Value(7)),
        put(7, 0, 7),
        Call::Check(TypeCompiled(0), Value(7)),
        Call::List(1),
        Call::List(8),
        Call::AllocTy(9),
        Call::Check(TypeCompiled(2), Value(7)),
        Call::AllocTy(4),
        Call::Check(TypeCompiled(3), Value(7)),
    ]?)
}

// The other kinds of types, and int | custom.0, where custom.0 has the cells of type 16 with mark 5.
pub(crate) fn check_customs(heap: Global) -> Result<Vec<Call>, AllocError> {
    Ok(vec![in heap;
        Call::Tuple(vec![in heap; 2usize, 3usize]?),
        Call::Dict { key: 3, value: 2 },
        Call::Custom(0),
        Call::Set(2),
        Call::Iter(1),
        Call::Callable,
        Call::TypeOfTypes,
        Call::TupleOf(2),
        Call::Union2(2, 12),
        Call::AllocTy(18),
        Call::New(head(16, 0, 5), Vec::new(heap)),
        Call::New(head(16, 0, 6), Vec::new(heap)),
        Call::Check(TypeCompiled(4), Value(8)),
        Call::Check(TypeCompiled(4), Value(9)),
        Call::Check(TypeCompiled(4), Value(2)),
    ]?)
}

// A tuple of 24 ints, which the store has no room for, and one of 65.
pub(crate) fn make_wide_types(heap: Global) -> Result<Vec<Call>, AllocError> {
    Ok(vec![in heap;
        Call::Tuple(vec![in heap; 2usize; 24]?),
        Call::AllocTy(19),
        Call::Tuple(vec![in heap; 2usize; 65]?),
        Call::Check(TypeCompiled(0), Value(4)),
    ]?)
}
