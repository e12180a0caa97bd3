// The task `contribution`: securities, trades and the last contribution in, each step to the new one out.
ghost use Rattle.std.specs.Prelude.{◌≡◌, ◌+◌, ◌*◌};
ghost use Rattle.contribution.specs.Steps.{distance};

use crate::trouble::Trouble;
use contribution::{Isin, MINIMUM, Position, Security, Side, Trade, contribution};
use std::alloc::{AllocError, Global};
use std::str::SplitWhitespace;

#[derive(Drop)]
struct Request {
    securities: Vec<Security>,
    trades: Vec<Trade>,
    last: u64,
}

#[derive(Drop)]
enum Line {
    Security(Security),
    Trade(Trade),
    Last(u64),
}

fn isin(words: &mut SplitWhitespace<'_>) -> Option<Isin> {
    let bytes = <[u8; 12]>::try_from(words.next()?.as_bytes()).ok()?;
    Some(Isin { bytes })
}

fn side(words: &mut SplitWhitespace<'_>) -> Option<Side> {
    let [letter] = words.next()?.as_bytes() else {
        return None;
    };
    Side::try_from(*letter).ok()
}

fn number(words: &mut SplitWhitespace<'_>) -> Option<u64> {
    words.next()?.parse::<u64>().ok()
}

fn security(words: &mut SplitWhitespace<'_>) -> Option<Security> {
    Some(Security {
        isin: isin(words)?,
        price: number(words)?,
        risk: number(words)?,
        rate: number(words)?,
    })
}

fn trade(words: &mut SplitWhitespace<'_>) -> Option<Trade> {
    Some(Trade {
        isin: isin(words)?,
        side: side(words)?,
        quantity: number(words)?,
        price: number(words)?,
    })
}

fn read_line(text: &str) -> Option<Line> {
    let mut words = text.split_whitespace();
    let line = match words.next()? {
        "P" => Line::Security(security(&mut words)?),
        "T" => Line::Trade(trade(&mut words)?),
        "M" => Line::Last(number(&mut words)?),
        _ => return None,
    };
    match words.next() {
        Some(_) => None,
        None => Some(line),
    }
}

// Without a line of its own the last contribution is the minimum.
fn read(heap: Global, text: &str) -> Result<Request, Trouble> {
    let mut securities = Vec::new(heap);
    let mut trades = Vec::new(heap);
    let mut last = MINIMUM;
    for (line, place) in text.lines().zip(1..) {
        match read_line(line).ok_or(Trouble::BadLine(place))? {
            Line::Security(security) => securities.push(security)?,
            Line::Trade(trade) => trades.push(trade)?,
            Line::Last(amount) => last = amount,
        }
    }
    Ok(Request {
        securities,
        trades,
        last,
    })
}

// V
fn value(position: Position, price: u64) -> u128
    ensures { result ≡ distance position.bought position.sold * price }
{
    position.bought.abs_diff(position.sold) as u128 * price as u128
}

// Money, and a quantity at the settlement price.
fn settled(money: u64, quantity: u64, price: u64) -> u128
    ensures { result ≡ money + quantity * price }
{
    money as u128 + quantity as u128 * price as u128
}

// A difference with its sign.
fn difference(heap: Global, a: u128, b: u128) -> Result<String, AllocError> {
    if a < b {
        let less = b - a;
        format!(in heap; "-{less}")
    } else {
        let more = a - b;
        format!(in heap; "{more}")
    }
}

// One security: the net quantity, V and G.
fn step(heap: Global, security: &Security, position: Position) -> Result<String, AllocError> {
    let price = security.price;
    let net = difference(heap, position.bought as u128, position.sold as u128)?;
    let value = value(position, price);
    let up = settled(position.paid, position.sold, price);
    let down = settled(position.received, position.bought, price);
    let gain = difference(heap, up, down)?;
    format!(in heap; "n {net} V {value} G {gain}\n")
}

// What is printed: the steps in each security, in the order of the P lines, and the steps over all.
pub(crate) fn reply(heap: Global, text: &str) -> Result<String, Trouble> {
    let request = read(heap, text)?;
    let last = request.last;
    let assessment = contribution(
        request.securities.as_slice(),
        request.trades.as_slice(),
        last,
    )?;
    let mut out = String::new(heap);
    for (security, position) in request.securities.iter().zip(assessment.positions.iter()) {
        out.push_str(step(heap, security, *position)?.as_str())?;
    }
    let provisional = assessment.provisional;
    let calculated = assessment.calculated;
    let required = assessment.required;
    let end = format!(in heap;
        "WW {provisional}\nW {calculated}\nlast {last} required {required}\n"
    )?;
    out.push_str(end.as_str())?;
    Ok(out)
}

#[cfg(test)]
mod tests {
    use super::*;
    use crate::saying::said;
    use std::test::Fail;

    const SHARE: &str = "P PLSHARE00018 1000 1250 10000\n";

    // The reply to the one security with these further lines.
    fn with_share(heap: Global, more: &str) -> Result<String, Trouble> {
        let mut text = String::from_str(heap, SHARE)?;
        text.push_str(more)?;
        reply(heap, text.as_str())
    }

    #[test]
    fn replies(rt: HostRuntime) -> Result<(), Fail> {
        let cases = [
            (
                "T PLSHARE00018 K 50000 1040\nT PLSHARE00018 S 20000 990\n",
                "n 30000 V 30000000 G 2200000\nWW 5950000\nW 5950000\nlast 2000000 required 5950000\n",
            ),
            (
                "T PLSHARE00018 S 20000 1100\nM 2500001\n",
                "n -20000 V 20000000 G -2000000\nWW 2500000\nW 2500000\nlast 2500001 required 2500001\n",
            ),
            (
                "M 0\n",
                "n 0 V 0 G 0\nWW 0\nW 2000000\nlast 0 required 2000000\n",
            ),
            (
                "T PLSHARE00018 K 50000\n",
                "line 2 is none of: P ISIN price risk rate; T ISIN K|S quantity price; M last",
            ),
            (
                "M 1\nT PLSHARE00026 K 1 1\n",
                "refused 17 c at 0: the ISIN of this trade is not listed",
            ),
            (
                SHARE,
                "refused 15 c at 1: the ISIN of this security was listed before",
            ),
        ];
        for (more, expected) in cases {
            let answer = said(rt.alloc(), with_share(rt.alloc(), more))?;
            assert!(rt; answer.as_str() == expected, "{}", more);
        }
        Ok(())
    }
}
