// The tests of the contribution, each over a table of cases.
use contribution::{Fault, Isin, MINIMUM, Position, Security, Side, Trade, contribution};
use division::{Layer, Refusal};
use std::test::Fail;

// An ISIN for each n.
fn isin(n: u8) -> Isin {
    let mut bytes = *b"PL0000000000";
    bytes[10] = b'A' + n / 10;
    bytes[11] = b'0' + n % 10;
    Isin { bytes }
}

const MALFORMED: Isin = Isin { bytes: [255; 12] };

fn security(n: u8, price: u64, risk: u64, rate: u64) -> Security {
    Security {
        isin: isin(n),
        price,
        risk,
        rate,
    }
}

fn bought(n: u8, quantity: u64, price: u64) -> Trade {
    Trade {
        isin: isin(n),
        side: Side::Bought,
        quantity,
        price,
    }
}

fn sold(n: u8, quantity: u64, price: u64) -> Trade {
    Trade {
        side: Side::Sold,
        ..bought(n, quantity, price)
    }
}

// WW, W and the new contribution.
fn steps(securities: &[Security], trades: &[Trade], last: u64) -> Result<(u64, u64, u64), Fault> {
    let assessment = contribution(securities, trades, last)?;
    Ok((
        assessment.provisional,
        assessment.calculated,
        assessment.required,
    ))
}

// WW alone, of a member who had no contribution.
fn provisional(securities: &[Security], trades: &[Trade]) -> Result<u64, Fault> {
    Ok(contribution(securities, trades, 0)?.provisional)
}

#[test]
fn worked_figures(rt: HostRuntime) {
    let a = security(0, 1_000, 1_250, 10_000);
    let both = [a, security(1, 1_000, 1_250, 10_000)];
    assert_eq!(rt;
        steps(&[a], &[bought(0, 50_000, 1_040), sold(0, 20_000, 990)], 0),
        Ok((5_950_000, 5_950_000, 5_950_000))
    );
    assert_eq!(rt;
        provisional(&[a], &[bought(0, 20_000, 900)]),
        Ok(2_500_000),
        "bought below"
    );
    assert_eq!(rt;
        provisional(&[a], &[sold(0, 20_000, 1_100)]),
        Ok(2_500_000),
        "sold above"
    );
    assert_eq!(rt;
        provisional(&[a], &[sold(0, 20_000, 900)]),
        Ok(4_500_000),
        "sold below"
    );
    assert_eq!(rt;
        provisional(&both, &[bought(0, 20_000, 1_100), bought(1, 20_000, 900)]),
        Ok(5_000_000),
        "one maximum"
    );
    assert_eq!(rt;
        steps(&both, &[], 0),
        Ok((0, 2_000_000, 2_000_000)),
        "no trades"
    );
    assert_eq!(rt; steps(&[], &[], 0), Ok((0, MINIMUM, MINIMUM)), "nothing");
}

#[test]
fn one_rounding(rt: HostRuntime) {
    let small = [security(0, 101, 1, 43_215), security(1, 101, 1, 43_215)];
    assert_eq!(rt;
        steps(&small, &[bought(0, 1, 101)], 0),
        Ok((1, MINIMUM, MINIMUM))
    );
    assert_eq!(rt;
        steps(&small, &[bought(0, 1, 101), bought(1, 1, 101)], 0),
        Ok((1, MINIMUM, MINIMUM))
    );
}

#[test]
fn a_tenth_of_the_last_keeps_it(rt: HostRuntime) -> Result<(), Fail> {
    // without risk and in złoty one bought adds to WW by how far it lies above the settlement price
    let riskless = [security(0, 1_000, 0, 10_000)];
    // a trade's price, the last contribution, W and the new contribution
    let cases = [
        (6_546_000, 5_950_000, 6_545_000, 5_950_000),
        (6_546_001, 5_950_000, 6_545_001, 6_545_001),
        (5_356_000, 5_950_000, 5_355_000, 5_950_000),
        (5_355_999, 5_950_000, 5_354_999, 5_354_999),
        (2_201_000, 2_000_000, 2_200_000, 2_000_000),
        (2_201_001, 2_000_000, 2_200_001, 2_200_001),
        // a tenth of the last, though more than a tenth of W
        (1_000, 2_222_222, 2_000_000, 2_222_222),
        (1_000, 2_222_223, 2_000_000, 2_000_000),
        (2_001_001, 0, 2_000_001, 2_000_001),
        (1_000, 1, 2_000_000, 2_000_000),
        (99_001_000, u64::MAX, 99_000_000, 99_000_000),
    ];
    for (price, last, calculated, required) in cases {
        let assessment = contribution(&riskless, &[bought(0, 1, price)], last)?;
        assert_eq!(rt; assessment.calculated, calculated, "{}", price);
        assert_eq!(rt; assessment.required, required, "{}", price);
    }
    Ok(())
}

#[test]
fn ranges_of_a_security(rt: HostRuntime) {
    let taken = Ok(0);
    let refused = Err(Fault::Terms(1));
    let cases = [
        (0, 1, 1, refused),
        (1, 0, 1, taken),
        (1, 1, 0, refused),
        (1, 1, 1, taken),
        (100_000_000, 10_000, 100_000, taken),
        (100_000_001, 10_000, 100_000, refused),
        (100_000_000, 10_001, 100_000, refused),
        (100_000_000, 10_000, 100_001, refused),
        (u64::MAX, 1, 1, refused),
        (1, u64::MAX, 1, refused),
        (1, 1, u64::MAX, refused),
        (u64::MAX, u64::MAX, u64::MAX, refused),
    ];
    for (price, risk, rate, answer) in cases {
        let securities = [security(0, 1, 0, 1), security(1, price, risk, rate)];
        assert_eq!(rt;
            provisional(&securities, &[]),
            answer,
            "{price} {risk} {rate}"
        );
    }
}

#[test]
fn ranges_of_a_trade(rt: HostRuntime) {
    let out = Err(Fault::Deal(1));
    let large = Err(Fault::TooLarge(1));
    // the settlement price, the quantity and the price of a trade
    let cases = [
        (1, 0, 1, out),
        (1, 1, 0, out),
        (1, 1, 1, Ok(0)),
        (1, 1_000_000, 1, Ok(0)),
        (1, 1_000_001, 1, out),
        (1, 1, 100_000_000, Ok(99_999_999)),
        (1, 1, 100_000_001, out),
        (1, 1_000_000, 100, Ok(99_000_000)),
        (1, 1_000_000, 101, large),
        (1, 2, 50_000_000, Ok(99_999_998)),
        (1, 2, 50_000_001, large),
        (50_000_000, 2, 1, Ok(0)),
        (50_000_001, 2, 1, large),
        (1, u64::MAX, 1, out),
        (1, 1, u64::MAX, out),
        (1, u64::MAX, u64::MAX, out),
    ];
    for (settlement, quantity, price, answer) in cases {
        let trades = [bought(0, 1, settlement), bought(0, quantity, price)];
        assert_eq!(rt;
            provisional(&[security(0, settlement, 0, 10_000)], &trades),
            answer,
            "{settlement} {quantity} {price}"
        );
    }
}

#[test]
fn form_of_an_isin(rt: HostRuntime) {
    let cases = [
        (0, b'A', true),
        (0, b'Z', true),
        (0, b'@', false),
        (0, b'[', false),
        (0, b'p', false),
        (0, b'0', false),
        (0, 0, false),
        (0, 255, false),
        (1, b'Z', true),
        (1, b'9', false),
        (2, b'A', true),
        (2, b'0', true),
        (2, b'a', false),
        (6, 255, false),
        (10, b'Z', true),
        (10, b'9', true),
        (10, b'/', false),
        (10, b':', false),
        (10, b'@', false),
        (10, b'[', false),
        (11, b'0', true),
        (11, b'9', true),
        (11, b'/', false),
        (11, b':', false),
        (11, b'A', false),
        (11, 255, false),
    ];
    for (i, b, holds) in cases {
        assert!(rt; i < 12);
        let mut bytes = isin(0).bytes;
        bytes[i] = b;
        let isin = Isin { bytes };
        let (listed, traded) = if holds {
            (Ok(0), Err(Fault::NotListed(0)))
        } else {
            (Err(Fault::Isin(0)), Err(Fault::Isin(0)))
        };
        let security = Security {
            isin,
            ..security(0, 1, 0, 1)
        };
        let trade = Trade {
            isin,
            ..bought(0, 1, 1)
        };
        assert_eq!(rt; isin.is_well_formed(), holds, "{b} at {i}");
        assert_eq!(rt; provisional(&[security], &[]), listed, "{b} at {i}");
        assert_eq!(rt; provisional(&[], &[trade]), traded, "{b} at {i}");
    }
}

#[test]
fn order_in_the_securities(rt: HostRuntime) {
    let good = security(0, 1, 0, 1);
    let unpriced = security(1, 0, 0, 1);
    let malformed = Security {
        isin: MALFORMED,
        ..unpriced
    };
    let repeated = security(0, 2, 1, 2);
    let cases = [
        ([good, malformed, unpriced], Fault::Isin(1)),
        ([good, unpriced, malformed], Fault::Terms(1)),
        ([repeated, good, malformed], Fault::ListedBefore(1)),
        ([good, unpriced, repeated], Fault::Terms(1)),
        ([unpriced, good, repeated], Fault::Terms(0)),
        ([malformed, malformed, good], Fault::Isin(0)),
        ([good, repeated, repeated], Fault::ListedBefore(1)),
        (
            [good, security(1, 1, 0, 1), repeated],
            Fault::ListedBefore(2),
        ),
        (
            [good, security(1, 1, 0, 1), security(0, 0, 0, 1)],
            Fault::Terms(2),
        ),
    ];
    for (securities, fault) in cases {
        // the trades are not looked at
        assert_eq!(rt; provisional(&securities, &[bought(9, 0, 0)]), Err(fault));
    }
}

#[test]
fn order_in_the_trades(rt: HostRuntime) {
    let good = bought(0, 1, 1);
    let malformed = Trade {
        isin: MALFORMED,
        ..bought(0, 0, 0)
    };
    let undealt = sold(1, 0, 1);
    let unlisted = sold(1, 2, 100_000_000);
    let large = sold(0, 2, 100_000_000);
    let cases = [
        ([good, malformed, undealt], Fault::Isin(1)),
        ([good, undealt, malformed], Fault::Deal(1)),
        ([good, unlisted, malformed], Fault::NotListed(1)),
        ([large, malformed, undealt], Fault::TooLarge(0)),
        ([good, good, unlisted], Fault::NotListed(2)),
        ([undealt, unlisted, large], Fault::Deal(0)),
        ([good, good, large], Fault::TooLarge(2)),
    ];
    for (trades, fault) in cases {
        assert_eq!(rt; provisional(&[security(0, 1, 0, 1)], &trades), Err(fault));
    }
    // 18 looks at each trade, not at what they come to together
    assert_eq!(rt;
        provisional(
            &[security(0, 50_000_001, 0, 1)],
            &[bought(0, 2, 1), sold(0, 2, 1)],
        ),
        Err(Fault::TooLarge(0))
    );
}

#[test]
fn highest_contribution(rt: HostRuntime) {
    let highest = 1_000_000_000;
    let securities = [security(0, 1, 0, 100_000), security(1, 1, 0, 1)];
    let most = [bought(0, 1, 100_000_000), bought(0, 1, 2)];
    let more = [most[0], most[1], bought(1, 1, 2)];
    assert_eq!(rt;
        steps(&securities, &most, 0),
        Ok((highest, highest, highest))
    );
    assert_eq!(rt;
        steps(&securities, &more, 0),
        Err(Fault::TooHigh),
        "a ten-thousandth above"
    );
    assert_eq!(rt;
        steps(&securities, &more, highest),
        Err(Fault::TooHigh),
        "the last would stand"
    );
    assert_eq!(rt;
        steps(
            &securities,
            &[more[0], more[1], more[2], bought(0, 0, 1)],
            0,
        ),
        Err(Fault::Deal(3)),
        "the trades first"
    );
}

#[test]
fn sixty_four_securities_and_one_more(rt: HostRuntime) -> Result<(), Fail> {
    let mut securities: Vec<Security> = (0..64)
        .map(|n| security(n, 1, 0, 10_000))
        .collect(rt.alloc())?;
    let trades = [bought(0, 1, 4_000_001), bought(63, 1, 3_000_001)];
    assert_eq!(rt; provisional(securities.as_slice(), &trades), Ok(7_000_000));
    securities.push(security(64, 0, 0, 0))?;
    assert_eq!(rt;
        provisional(securities.as_slice(), &[bought(0, 0, 0)]),
        Err(Fault::TooMany)
    );
    Ok(())
}

#[test]
fn trades_up_to_their_limit(rt: HostRuntime) -> Result<(), Fail> {
    let securities = [security(0, 100_000_000, 10_000, 100_000)];
    let unpriced = [security(0, 0, 0, 0)];
    let mut trades = vec![in rt.alloc(); sold(0, 1, 1); 128]?;
    // the number that is divided comes near 2.56 × 10^19
    assert_eq!(rt;
        provisional(&securities, trades.as_slice()),
        Err(Fault::TooHigh)
    );
    assert_eq!(rt;
        provisional(&[security(0, 40_001, 0, 10_000)], trades.as_slice()),
        Ok(5_120_000)
    );
    assert_eq!(rt;
        provisional(&unpriced, trades.as_slice()),
        Err(Fault::Terms(0))
    );
    trades.push(bought(9, 0, 0))?;
    assert_eq!(rt;
        provisional(&unpriced, trades.as_slice()),
        Err(Fault::TooMany)
    );
    Ok(())
}

#[test]
fn positions_in_their_order(rt: HostRuntime) -> Result<(), Fail> {
    let securities = [
        security(0, 1_000, 1_250, 10_000),
        security(1, 900, 0, 10_000),
    ];
    let trades = [
        bought(1, 20_000, 800),
        bought(0, 50_000, 1_040),
        sold(1, 30_000, 950),
        sold(0, 20_000, 990),
        bought(0, 1, 7),
    ];
    let positions = contribution(&securities, &trades, 0)?.positions;
    assert_eq!(rt;
        positions[0],
        Position {
            bought: 50_001,
            sold: 20_000,
            paid: 52_000_007,
            received: 19_800_000,
        }
    );
    assert_eq!(rt;
        positions[1],
        Position {
            bought: 20_000,
            sold: 30_000,
            paid: 16_000_000,
            received: 28_500_000,
        }
    );
    let flat = Position {
        bought: 0,
        sold: 0,
        paid: 0,
        received: 0,
    };
    for position in positions.iter().skip(2) {
        assert_eq!(rt; *position, flat);
    }
    Ok(())
}

#[test]
fn refusals_tell_number_layer_and_place(rt: HostRuntime) {
    let told = [
        (Fault::TooMany, 19, 0),
        (Fault::Isin(3), 13, 3),
        (Fault::Terms(63), 14, 63),
        (Fault::ListedBefore(1), 15, 1),
        (Fault::Deal(2), 16, 2),
        (Fault::NotListed(0), 17, 0),
        (Fault::TooLarge(usize::MAX), 18, usize::MAX),
        (Fault::TooHigh, 20, 0),
    ];
    for (fault, number, place) in told {
        assert_eq!(rt;
            fault.refusal(),
            Refusal {
                number,
                layer: Layer::Contribution,
                place,
            }
        );
    }
    assert_eq!(rt; Layer::Contribution.letter(), 'c');
}
