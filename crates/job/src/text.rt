// The text of an annotation, and the number of its record.
#[derive(Clone, Copy)]
pub struct Text<'a> {
    pub record: usize,
    pub bytes: &'a [u8],
}
