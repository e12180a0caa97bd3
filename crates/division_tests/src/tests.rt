// The tests of the division.
use division::{Fault, Layer, Refusal, divide};
use std::test::Fail;

// The largest amount, and the most that weights come to.
const MOST: u64 = 4_000_000_000;

#[test]
fn parts_follow_the_weights(rt: HostRuntime) {
    let mut parts = [9, 9, 9];
    assert_eq!(rt; divide(10, &[1, 1, 1], &mut parts), Ok(()));
    assert_eq!(rt; parts, [3, 3, 4]);
    assert_eq!(rt; divide(3, &[5, 0, 5], &mut parts), Ok(()));
    assert_eq!(rt; parts, [1, 0, 2]);
    assert_eq!(rt; divide(0, &[5, 0, 5], &mut parts), Ok(()));
    assert_eq!(rt; parts, [0, 0, 0]);
}

#[test]
fn refusals_leave_the_list(rt: HostRuntime) {
    let mut parts = [7, 8];
    assert_eq!(rt;
        divide(1, &[1], &mut parts),
        Err(Fault::Things),
        "a list too long"
    );
    assert_eq!(rt;
        divide(1, &[1, 1, 1], &mut parts),
        Err(Fault::Things),
        "a list too short"
    );
    assert_eq!(rt;
        divide(1, &[MOST, 1], &mut parts),
        Err(Fault::Things),
        "weights one too many"
    );
    assert_eq!(rt;
        divide(1, &[u64::MAX, u64::MAX], &mut parts),
        Err(Fault::Things),
        "the largest weights"
    );
    assert_eq!(rt;
        divide(MOST + 1, &[0, 0], &mut parts),
        Err(Fault::Amount),
        "the amount before the weights"
    );
    assert_eq!(rt;
        divide(u64::MAX, &[1, 1], &mut parts),
        Err(Fault::Amount),
        "the largest amount"
    );
    assert_eq!(rt;
        divide(0, &[0, 0], &mut parts),
        Err(Fault::NoWeight),
        "nothing over no weight"
    );
    assert_eq!(rt;
        divide(1, &[] as &[u64; 0], &mut []),
        Err(Fault::NoWeight),
        "over nothing"
    );
    assert_eq!(rt; parts, [7, 8]);
}

#[test]
fn limits_pass(rt: HostRuntime) {
    let mut parts = [0, 0];
    assert_eq!(rt; divide(MOST, &[MOST - 1, 1], &mut parts), Ok(()));
    assert_eq!(rt; parts, [MOST - 1, 1]);
}

#[test]
fn sixty_four_things_and_one_more(rt: HostRuntime) -> Result<(), Fail> {
    let heap = rt.alloc();
    let mut things = vec![in heap; 1; 64]?;
    let mut parts = vec![in heap; 5; 64]?;
    assert_eq!(rt; divide(65, things.as_slice(), parts.as_mut_slice()), Ok(()));
    assert_eq!(rt; parts.get(0).copied(), Some(1));
    assert_eq!(rt; parts.get(63).copied(), Some(2));
    things.push(1)?;
    let mut more = vec![in heap; 5; 65]?;
    assert_eq!(rt;
        divide(65, things.as_slice(), more.as_mut_slice()),
        Err(Fault::Things)
    );
    assert_eq!(rt; more.get(0).copied(), Some(5));
    Ok(())
}

#[test]
fn refusals_tell_number_layer_and_place(rt: HostRuntime) {
    let told = [
        (Fault::Things, 25),
        (Fault::Amount, 12),
        (Fault::NoWeight, 40),
    ];
    for (fault, number) in told {
        assert_eq!(rt;
            fault.refusal(),
            Refusal {
                number,
                layer: Layer::Division,
                place: 0,
            }
        );
    }
    assert_eq!(rt; Layer::Division.letter(), 'd');
}
