use pv_link::{DownEnd, UpEnd};

/// The numbers that an end of this many packets gives next, three times.
fn next_three(end: &mut DownEnd, front: u64) -> [Option<u64>; 3] {
    [end.next(front), end.next(front), end.next(front)]
}

#[test]
fn numbers_go_round_until_they_are_acknowledged(rt: HostRuntime) {
    let mut end = DownEnd::new();
    let rows = [
        (0, 0, [None, None, None]),
        (0, 2, [Some(0), Some(1), Some(0)]),
        (1, 3, [Some(1), Some(2), Some(1)]),
        (3, 3, [None, None, None]),
    ];
    for (acknowledged, front, wanted) in rows {
        end.acknowledged(acknowledged, front);
        assert_eq!(rt; next_three(&mut end, front), wanted, "up to {acknowledged}");
    }
}

#[test]
fn an_end_keeps_the_greatest_number_up_to_the_front(rt: HostRuntime) {
    let mut end = UpEnd::new();
    let rows = [
        (3, 2, Some(0)),
        (2, 2, None),
        (1, 2, None),
        (0, 3, Some(2)),
        (0, u64::MAX, Some(3)),
    ];
    for (acknowledged, front, wanted) in rows {
        end.acknowledged(acknowledged, 2);
        assert_eq!(rt; end.next(front), wanted, "up to {acknowledged}");
    }
}
