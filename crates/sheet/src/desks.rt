// The book of a day with what the sheet told so far, and the case that is held.
ghost use Rattle.std.specs.Prelude.{◌≡◌};
ghost use Rattle.std.specs.Option.{option_map};

use crate::lists::{Limited, SECURITIES, TRADES};
use crate::trades::MemberTrade;
use book::{Book, Case};
use contribution::{Security, Trade};
use houses::TableHouse;

// The list `own` is for the trades of one member. A desk is not let go: it ends in `finish`.
pub(crate) struct Desk {
    pub(crate) book: Book<TableHouse>,
    pub(crate) held: Option<Case>,
    pub(crate) securities: Limited<Security, SECURITIES>,
    pub(crate) trades: Limited<MemberTrade, TRADES>,
    pub(crate) own: Limited<Trade, TRADES>,
    ghost holds: { option_map (λ c. c.number) held ≡ option_map (λ c. c.number) book.case },
}
