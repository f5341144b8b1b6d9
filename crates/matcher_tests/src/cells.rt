// The values that nodes are tried on.
use values::built_in::BuiltIn;
use values::empty::EmptyHeap;
use values::head::Head;
use values::live::LiveHeap;
use values::value::Value;

// The number of a value that is missing.
const MISSING: usize = 9999;

// An iterable value has this flag.
const ITERABLE: u8 = 2;

fn head(ty: BuiltIn, flags: u8, mark: i64) -> Head {
    let ty = u16::from(ty);
    Head { ty, flags, mark }
}

fn add(live: &mut LiveHeap<EmptyHeap>, head: Head, parts: &[Value]) -> Value {
    live.new(head, parts).unwrap_or(Value(MISSING))
}

// A list, a dict, a set or a tuple.
fn holder(live: &mut LiveHeap<EmptyHeap>, ty: BuiltIn, parts: &[Value]) -> Value {
    add(live, head(ty, ITERABLE, 0), parts)
}

// A value of a host's own type.
fn host(live: &mut LiveHeap<EmptyHeap>, ty: u16, flags: u8, mark: i64) -> Value {
    add(live, Head { ty, flags, mark }, &[])
}

pub(crate) fn int(live: &mut LiveHeap<EmptyHeap>, mark: i64) -> Value {
    add(live, head(BuiltIn::Int, 0, mark), &[])
}

pub(crate) fn text(live: &mut LiveHeap<EmptyHeap>) -> Value {
    add(live, head(BuiltIn::Str, 0, 0), &[])
}

pub(crate) fn list(live: &mut LiveHeap<EmptyHeap>, parts: &[Value]) -> Value {
    holder(live, BuiltIn::List, parts)
}

pub(crate) fn tuple(live: &mut LiveHeap<EmptyHeap>, parts: &[Value]) -> Value {
    holder(live, BuiltIn::Tuple, parts)
}

// A list whose only part is itself.
pub(crate) fn own_list(live: &mut LiveHeap<EmptyHeap>) -> Value {
    let zero = int(live, 0);
    let own = list(live, &[zero]);
    let _ = live.put(own, 0, own);
    own
}

// The values 0 to 24.
pub(crate) fn fill(live: &mut LiveHeap<EmptyHeap>) {
    let seven = int(live, 7);
    let big = add(live, head(BuiltIn::Int, 8, 0), &[]);
    add(live, head(BuiltIn::Bool, 0, 1), &[]);
    let none = add(live, head(BuiltIn::NoneType, 0, 0), &[]);
    let s = text(live);
    list(live, &[]);
    list(live, &[seven]);
    list(live, &[seven, s]);
    holder(live, BuiltIn::Dict, &[]);
    holder(live, BuiltIn::Dict, &[seven, s]);
    holder(live, BuiltIn::Dict, &[seven, s, s, s]);
    holder(live, BuiltIn::Dict, &[seven, s, big, seven]);
    holder(live, BuiltIn::Set, &[]);
    holder(live, BuiltIn::Set, &[seven]);
    holder(live, BuiltIn::Set, &[seven, s]);
    tuple(live, &[]);
    tuple(live, &[seven]);
    tuple(live, &[seven, s]);
    tuple(live, &[seven, s, none]);
    tuple(live, &[seven, seven, seven]);
    host(live, 16, 7, 5);
    host(live, 16, 1, 6);
    host(live, 17, 4, 5);
    fill_cycles(live, seven);
}

// The values 23 and 24: a list and a dict that hold themselves.
fn fill_cycles(live: &mut LiveHeap<EmptyHeap>, seven: Value) {
    let own = list(live, &[seven]);
    let _ = live.put(own, 0, own);
    let dict = holder(live, BuiltIn::Dict, &[seven, seven]);
    let _ = live.put(dict, 1, dict);
}
