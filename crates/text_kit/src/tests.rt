use crate::{Bytes, Kind, Rows, Token, TokenFault, put_decimal, tokens};
use std::alloc::Global;
use std::process::Abort;
use std::test::Fail;

/// What a cut gives, with the tokens as pairs of a place and a length.
#[derive(Clone, Copy)]
enum Want<'a> {
    Words(&'a [(u64, u64)]),
    Marks(&'a [(u64, u64)]),
    Bad(u64),
}

fn expect(rt: &impl Abort, alloc: Global, text: &[u8], want: Want) {
    match (tokens(alloc, text), want) {
        (Ok(found), Want::Words(pairs)) => same(rt, &found, Kind::Word, pairs),
        (Ok(found), Want::Marks(pairs)) => same(rt, &found, Kind::Mark, pairs),
        (Err(TokenFault::BadByte { at }), Want::Bad(place)) => assert_eq!(rt; at, place),
        _ => assert!(rt; false),
    }
}

fn same(rt: &impl Abort, found: &Rows<Token>, kind: Kind, pairs: &[(u64, u64)]) {
    assert_eq!(rt; found.len(), pairs.len());
    for (token, (at, len)) in found.as_slice().iter().zip(pairs) {
        assert!(rt; token.at == *at && token.len == *len && token.kind == kind);
    }
}

#[test]
fn cuts(rt: HostRuntime) -> Result<(), Fail> {
    let alloc = rt.alloc();
    let long = [b'a'; 65];
    expect(&rt, alloc, b"", Want::Words(&[]));
    expect(
        &rt,
        alloc,
        b" ab_1 # c\xff\r d\n\tZ",
        Want::Words(&[(1, 4), (15, 1)]),
    );
    expect(&rt, alloc, b"#", Want::Words(&[]));
    expect(
        &rt,
        alloc,
        b"==>==->",
        Want::Marks(&[(0, 3), (3, 1), (4, 1), (5, 2)]),
    );
    expect(&rt, alloc, b"a -b", Want::Bad(2));
    expect(&rt, alloc, b"a 1b", Want::Bad(2));
    expect(&rt, alloc, &long[..64], Want::Words(&[(0, 64)]));
    expect(&rt, alloc, &long, Want::Bad(0));
    Ok(())
}

#[test]
fn digits(rt: HostRuntime) -> Result<(), Fail> {
    let mut out = Bytes::begin(rt.alloc());
    assert!(rt; put_decimal(&mut out, 0).is_ok());
    assert!(rt; put_decimal(&mut out, 120).is_ok());
    assert!(rt; put_decimal(&mut out, u64::MAX).is_ok());
    assert!(rt; out.as_slice() == b"012018446744073709551615".as_slice());
    Ok(())
}
