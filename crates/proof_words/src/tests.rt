use super::*;
use std::test::Fail;

#[derive(Clone, Copy)]
struct Case<'a> {
    word: &'a [u8],
    says: Number,
}

const CASES: &[Case] = &[
    Case {
        word: b"0",
        says: Number::Is(0),
    },
    Case {
        word: b"7",
        says: Number::Is(7),
    },
    Case {
        word: b"1024",
        says: Number::Is(1024),
    },
    Case {
        word: b"18446744073709551615",
        says: Number::Is(18446744073709551615),
    },
    Case {
        word: b"18446744073709551616",
        says: Number::Begins(19),
    },
    Case {
        word: b"18446744073709551620",
        says: Number::Begins(19),
    },
    Case {
        word: b"100000000000000000000",
        says: Number::Begins(20),
    },
    Case {
        word: b"01",
        says: Number::Begins(1),
    },
    Case {
        word: b"12a",
        says: Number::Begins(2),
    },
    Case {
        word: b"x1",
        says: Number::Begins(0),
    },
    Case {
        word: b"",
        says: Number::Begins(0),
    },
];

#[test]
fn numbers(rt: HostRuntime) -> Result<(), Fail> {
    for case in CASES {
        assert!(rt; read_number(case.word) == case.says);
    }
    Ok(())
}

const WORDS: &[&[u8]] = &[b"all", b"and", b"eps", b"eq"];

#[test]
fn shared(rt: HostRuntime) -> Result<(), Fail> {
    assert!(rt; shared_with(b"al", WORDS) == 2);
    assert!(rt; shared_with(b"alle", WORDS) == 3);
    assert!(rt; shared_with(b"ex", WORDS) == 1);
    assert!(rt; shared_with(b"", WORDS) == 0);
    Ok(())
}
