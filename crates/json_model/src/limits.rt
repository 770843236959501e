// The limits of specs/Limits.antt, for both readers and the bench, each named once.

// The least length of a BinaryJson and of a Fractured JSON document, and the greatest of both, in bytes.
pub const LEAST_BINARY: usize = 12;

pub const LEAST_FRACTURED: usize = 4;

pub const LONGEST: usize = 16777216;

// How deep containers may be nested; the root container is 1.
pub const DEEPEST: usize = 64;

// The most keys that a key table has room for.
pub const MOST_KEYS: usize = 4096;

// The bench: the most characters in a line, the marks that it lends, and the keys that its table has room for.
pub const LONGEST_LINE: usize = 32768;

pub const BENCH_MARKS: usize = 4094;

pub const BENCH_KEYS: usize = 4096;
