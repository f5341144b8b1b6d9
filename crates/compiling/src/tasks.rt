use matcher::kind::Kind;

// A step: it takes the last results as kids and writes a node.
#[derive(Clone, Copy)]
pub enum Op {
    // A node of a kind with a number over so many results.
    Write(Kind, u16, usize),
    ListOf,
    SetOf,
    DictOf,
    AnyOfTwo,
    AnyOf(usize),
}

// What is left to do, the last first.
#[derive(Clone, Copy)]
pub enum Task {
    // Compile a type.
    Ty(usize),
    // Compile an alternative of a type.
    Basic(usize, usize),
    // Compile a type's alternatives from one on.
    Alternatives(usize, usize),
    // Compile the elements of a fixed tuple from one on.
    Elements(usize, usize, usize),
    // Take a step.
    Step(Op),
}

// What a task is expanded to, the last first.
// Kept as an enum: an `ArrayVec` of three asks for a default task, and for pushes where each list here is one expression.
#[derive(Clone, Copy)]
pub enum Expansion {
    Zero,
    One(Task),
    Two(Task, Task),
    Three(Task, Task, Task),
}
