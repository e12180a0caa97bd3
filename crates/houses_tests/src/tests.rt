// The tests of the houses: transfers played from scripts, comparisons, and the limits of making.
use crate::passing::Passing;
use crate::shut::Shut;
use houses::{Entry, Fault, House, ListHouse, Opening, TableHouse, Transfer, compare};
use std::alloc::Global;
use std::process::Abort;
use std::test::Fail;

const MOST: u64 = 1_000_000_000_000_000;

const fn opening(account: u64, balance: u64) -> Opening {
    Opening { account, balance }
}

fn accounts() -> [Opening; 4] {
    [
        opening(0, 0),
        opening(1, 100),
        opening(10, 5_000_000_000),
        opening(9_999, MOST - 5),
    ]
}

fn table(heap: Global, openings: &[Opening]) -> Result<TableHouse, Fail> {
    TableHouse::check(openings)?;
    let list = Vec::with_capacity(heap, openings.len())?;
    Ok(TableHouse::make(openings, list))
}

fn list(heap: Global, openings: &[Opening], room: usize) -> Result<ListHouse, Fail> {
    ListHouse::check(openings, room)?;
    let list = Vec::with_capacity(heap, room)?;
    Ok(ListHouse::make(openings, list, room))
}

// The number of the refusal, if it is one.
fn number(answer: Result<(), Fault>) -> Option<u16> {
    answer.err().map(|fault| fault.refusal().number)
}

// Transfers, each with the number of the refusal that it is to get, if any.
fn play<C: House>(rt: &impl Abort, house: &mut C, script: &[(u64, u64, u64, Option<u16>)]) {
    for &(from, to, amount, due) in script {
        assert_eq!(rt; number(house.transfer(from, to, amount)), due);
    }
}

// Balances, none where the account is unknown.
fn holds<C: House>(rt: &impl Abort, house: &mut C, balances: &[(u64, Option<u64>)]) {
    for &(account, balance) in balances {
        assert_eq!(rt; house.balance(account).ok(), balance);
    }
}

#[test]
fn both_houses_answer_the_script(rt: HostRuntime) -> Result<(), Fail> {
    let mut one = table(rt.alloc(), &accounts())?;
    let mut other = Passing(list(rt.alloc(), &accounts(), 7)?);
    let script = [
        (10, 1, 0, Some(12)),
        (10, 1, 4_000_000_001, Some(12)),
        (5, 5, 0, Some(12)),
        (10, 10, 1, Some(22)),
        (70_000, 70_000, 1, Some(22)),
        (70_000, 80_000, 1, Some(52)),
        (4_294_967_296, 1, 1, Some(52)),
        (1, 65_536, 1, Some(52)),
        (10, 2, 1, Some(52)),
        (2, 10, 1, Some(52)),
        (1, 9_999, 101, Some(53)),
        (1, 9_999, 6, Some(54)),
        (1, 9_999, 5, None),
        (1, 9_999, 1, Some(54)),
        (10, 0, 4_000_000_000, None),
        (0, 1, 4_000_000_000, None),
    ];
    let left = [
        (0, Some(0)),
        (1, Some(4_000_000_095)),
        (2, None),
        (10, Some(1_000_000_000)),
        (9_999, Some(MOST)),
        (10_000, None),
        (65_536, None),
        (4_294_967_297, None),
    ];
    play(&rt, &mut one, &script);
    holds(&rt, &mut one, &left);
    play(&rt, &mut one, &[(1, 10, 1, None), (10, 1, 1, None)]);
    play(&rt, &mut other, &script);
    holds(&rt, &mut other, &left);
    play(
        &rt,
        &mut other,
        &[
            (1, 10, 1, Some(51)),
            (1, 2, 1, Some(51)),
            (1, 1, 1, Some(22)),
        ],
    );
    holds(&rt, &mut other, &left);
    Ok(())
}

#[test]
fn entries_stand_in_order(rt: HostRuntime) -> Result<(), Fail> {
    let mut house = list(rt.alloc(), &accounts(), 6)?;
    play(
        &rt,
        &mut house,
        &[(1, 0, 30, None), (1, 0, 71, Some(53)), (0, 10, 20, None)],
    );
    assert_eq!(rt; house.entries().len(), 6);
    let last = house.entries().last().copied();
    assert!(rt;
        matches!(
            last,
            Some(Entry::Transfer {
                from: 0,
                to: 10,
                amount: 20
            })
        )
    );
    Ok(())
}

#[test]
fn comparing_stops_at_the_list_that_is_full(rt: HostRuntime) -> Result<(), Fail> {
    let mut one = table(rt.alloc(), &accounts())?;
    let mut other = list(rt.alloc(), &accounts(), 6)?;
    let transfers = [
        Transfer {
            from: 1,
            to: 0,
            amount: 30,
        },
        Transfer {
            from: 70_000,
            to: 80_000,
            amount: 1,
        },
        Transfer {
            from: 0,
            to: 1,
            amount: 20,
        },
        Transfer {
            from: 0,
            to: 0,
            amount: 1,
        },
        Transfer {
            from: 0,
            to: 1,
            amount: 1,
        },
        Transfer {
            from: 0,
            to: 1,
            amount: 1,
        },
    ];
    assert_eq!(rt; compare(&mut one, &mut other, &transfers), 4);
    holds(&rt, &mut one, &[(0, Some(9))]);
    holds(&rt, &mut other, &[(0, Some(10))]);
    Ok(())
}

#[test]
fn limits_of_making(rt: HostRuntime) -> Result<(), Fail> {
    let mut many: Vec<Opening> = (0..128)
        .map(|account| opening(account, MOST))
        .collect(rt.alloc())?;
    assert_eq!(rt; number(TableHouse::check(&many)), None);
    many.push(opening(9_999, 1))?;
    assert_eq!(rt; number(TableHouse::check(&many)), Some(19));
    assert_eq!(rt; number(ListHouse::check(&many, 129)), None);
    assert_eq!(rt; number(ListHouse::check(&many, 128)), Some(19));
    assert_eq!(rt; number(ListHouse::check(&[], 1_024)), None);
    assert_eq!(rt; number(ListHouse::check(&[], 1_025)), Some(19));
    Ok(())
}

#[test]
fn accounts_that_are_refused(rt: HostRuntime) {
    let bad = [
        opening(1, 7),
        opening(10_000, 0),
        opening(65_536, 0),
        opening(2, MOST + 1),
    ];
    for last in bad {
        let openings = [opening(1, 0), last];
        assert_eq!(rt; number(TableHouse::check(&openings)), Some(26));
        assert_eq!(rt; number(ListHouse::check(&openings, 2)), Some(26));
        assert_eq!(rt; number(ListHouse::check(&openings, 1)), Some(19));
    }
}

#[test]
fn houses_without_accounts_or_entries(rt: HostRuntime) -> Result<(), Fail> {
    let mut bare = table(rt.alloc(), &[])?;
    play(&rt, &mut bare, &[(0, 1, 1, Some(52))]);
    holds(&rt, &mut bare, &[(0, None)]);
    let mut full = list(rt.alloc(), &accounts(), 4)?;
    play(&rt, &mut full, &[(10, 1, 1, Some(51))]);
    holds(&rt, &mut full, &[(1, Some(100))]);
    let mut shut = Shut(table(rt.alloc(), &accounts())?);
    play(
        &rt,
        &mut shut,
        &[
            (1, 2, 0, Some(12)),
            (10, 10, 1, Some(22)),
            (10, 1, 1, Some(51)),
        ],
    );
    holds(&rt, &mut shut, &[(1, Some(100))]);
    Ok(())
}
