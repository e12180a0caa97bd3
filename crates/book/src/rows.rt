// What the book keeps of each member, and of the open case.
use houses::Number;

#[derive(Clone, Copy, PartialEq, Eq, Debug)]
pub enum Standing {
    Active,
    Defaulting,
    Barred,
}

// One member: what is paid in as contribution and what was credited, what is required, and what the open case took.
#[derive(Clone, Copy, PartialEq, Eq, Debug)]
pub struct Row {
    pub code: Number,
    pub standing: Standing,
    pub base: u64,
    pub reserve: u64,
    pub required: u64,
    pub charged: u64,
}

// The open case, with what its uses charged and what was recovered.
#[derive(Clone, Copy, PartialEq, Eq, Debug)]
pub struct OpenCase {
    pub number: u16,
    pub charged: u64,
    pub recovered: u64,
}
