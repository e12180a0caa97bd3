// The trades of a sheet, each with the code of its member.
ghost use Rattle.std.specs.Prelude.{◌≡◌};
ghost use Rattle.sheet.specs.Days.{trades_of};

use crate::lists::{Limited, TRADES};
use contribution::Trade;

#[derive(Clone, Copy)]
pub struct MemberTrade {
    pub code: u64,
    pub trade: Trade,
}

// The member's trades in the list, in place of what it held.
pub(crate) fn collect(
    trades: &Limited<MemberTrade, TRADES>,
    code: u64,
    own: &mut Limited<Trade, TRADES>,
)
    ensures { own.new.list.items ≡ trades_of trades.now.list.items code }
{
    own.list.clear();
    // not by `extend`, which may ask for memory
    for trade in &trades.list {
        if trade.code == code {
            own.list.push_reserved(trade.trade);
        }
    }
}
