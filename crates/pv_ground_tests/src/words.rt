use pv_words::{
    AllOf, Below, Number, first_line, none_as, number_of, one, one_as, split_word, three, three_as,
    two, two_as,
};

#[test]
fn a_line_is_a_word_and_parts(rt: HostRuntime) {
    let (word, tail) = split_word(b"keys 0  a b");
    let Some((0, part)) = two(&Below(1), &AllOf, tail) else {
        panic!(rt; "keys");
    };
    assert_eq!(rt;
        (word, part.bytes()),
        (b"keys".as_slice(), b" a b".as_slice())
    );
}

#[test]
fn parts_are_handed_on(rt: HostRuntime) {
    let three = three_as(
        &Below(2),
        &Number,
        &Below(9),
        b" 1 2 3",
        |(a, b, c)| (c, b, a),
    );
    let two = two_as(&Number, &Number, b" 1 2", |(a, b)| (b, a));
    assert_eq!(rt; (three, two), (Some((3, 2, 1)), Some((2, 1))));
}

#[test]
fn each_part_stands_after_a_space(rt: HostRuntime) {
    let one = (one_as(&Number, b" 7", |n| n), one(&Number, b"7"));
    let none = (none_as(b"", 5), none_as(b" ", 5));
    assert_eq!(rt; (one, none), ((Some(7), None), (Some(5), None)));
    assert_eq!(rt; three(&Number, &Number, &Number, b" 1 2"), None);
}

#[test]
fn numbers_are_decimal_and_nothing_else(rt: HostRuntime) {
    assert_eq!(rt; number_of(b"18446744073709551615"), Some(u64::MAX));
    assert_eq!(rt; number_of(b"0"), Some(0));
    assert_eq!(rt; number_of(b"9"), Some(9));
    let others: [&[u8]; 9] = [
        b"",
        b"/",
        b":",
        b"01",
        b"+1",
        b"-1",
        b" 1",
        b"1a",
        b"18446744073709551616",
    ];
    for other in others {
        assert_eq!(rt; number_of(other), None, "at {other:?}");
    }
}

#[test]
fn lines_end_with_a_newline(rt: HostRuntime) {
    assert_eq!(rt; first_line(b"a\n\nb"), (b"a".as_slice(), b"\nb".as_slice()));
    assert_eq!(rt; first_line(b"b"), (b"b".as_slice(), b"".as_slice()));
}
