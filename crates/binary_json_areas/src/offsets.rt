// The offset of a Meta or an Entry, of a slot of the string index, and of a number: three kinds that are not mixed.
#[derive(Clone, Copy, Debug, PartialEq, Eq)]
pub struct TreeOffset(pub usize);

#[derive(Clone, Copy, Debug, PartialEq, Eq)]
pub struct SlotOffset(pub usize);

#[derive(Clone, Copy, Debug, PartialEq, Eq)]
pub struct NumberOffset(pub usize);
