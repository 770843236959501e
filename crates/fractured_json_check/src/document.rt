// A document that keeps rules 31 to 34, with the number of names that its key list has. Every place and length in it
// fits a word of the key table.
ghost use Rattle.std.specs.Prelude.{◌^◌, ◌<◌, length};

#[derive(Clone, Copy)]
pub(crate) struct Document<'a> {
    pub(crate) bytes: &'a [u8],
    pub(crate) names: usize,
    pub(crate) ghost short: { length bytes.now < 2 ^ 32 },
}
