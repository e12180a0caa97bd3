// Cash houses: what a house of accounts is, and the two that are kept, one over a table of balances and one over a list of entries.
#![tactic(auto)]

mod cash;
mod comparing;
mod entries;
mod faults;
mod judging;
mod keeping;
mod list_calls;
mod list_house;
mod numbers;
mod openings;
mod table;
mod table_calls;
mod table_house;
mod telling;
mod transfers;

pub use cash::House;
pub use comparing::compare;
pub use entries::Entry;
pub use faults::Fault;
pub use list_house::ListHouse;
pub use numbers::Number;
pub use openings::Opening;
pub use table::Account;
pub use table_calls::ACCOUNTS;
pub use table_house::TableHouse;
pub use transfers::Transfer;
