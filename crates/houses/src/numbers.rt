// Account numbers as they are kept, which are narrower than those that are handed in.

pub type Number = u16;

// The highest account number.
pub const LAST: u64 = 9_999;
