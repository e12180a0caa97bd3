// The book of the fund: its members' rows, above any cash house.
#![tactic(auto)]

mod answers;
mod books;
mod cases;
mod charging;
mod checks;
mod faults;
mod groups;
mod members;
mod opening;
mod rows;
mod settling;
mod sharing;
mod standings;
mod table;

pub use answers::Answer;
pub use books::Book;
pub use cases::Case;
pub use faults::Fault;
pub use members::ROWS;
pub use rows::{OpenCase, Row, Standing};
pub use settling::FUND;
