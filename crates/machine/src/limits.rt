// The limits of documents 01 and 02, and the mark.

// The number of the book's layout: a landing that changes the book changes it.
pub const LAYOUT: u32 = 6;

// The mark that every opening writes: "arbiter" in bytes, then the layout.
pub const MARK: u64 = 0x6172626974657200 + LAYOUT as u64;

// The largest clock and the largest total, 2^63 - 1.
pub const LIMIT: u64 = 9223372036854775807;

// The shortest and the longest delay.
pub const SHORTEST: u64 = 3600;

pub const LONGEST: u64 = 2592000;

// The highest fee, in ten-thousandths.
pub const HIGHEST: u32 = 1000;
