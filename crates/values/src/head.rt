// What a value's cell has beside its parts: a type number, flags and a mark.
#[derive(Clone, Copy, PartialEq, Eq, Debug)]
pub struct Head {
    pub ty: u16,
    pub flags: u8,
    pub mark: i64,
}
