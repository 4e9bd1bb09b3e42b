use std::alloc::Global;
use std::test::Fail;
use text_kit::{Bytes, NoMemory};
use tstp_print::put_name;

fn written(alloc: Global, name: &[u8]) -> Result<Bytes, NoMemory> {
    let mut out = Bytes::begin(alloc);
    put_name(&mut out, name)?;
    Ok(out)
}

#[test]
fn quotes_names_that_are_no_words(rt: HostRuntime) -> Result<(), Fail> {
    let alloc = rt.alloc();
    assert_eq!(rt; written(alloc, b"f_1")?.as_slice(), b"f_1".as_slice());
    assert_eq!(rt; written(alloc, b"F")?.as_slice(), b"'F'".as_slice());
    assert_eq!(rt; written(alloc, b"1")?.as_slice(), b"'1'".as_slice());
    assert_eq!(rt;
        written(alloc, b"it's \\")?.as_slice(),
        b"'it\\'s \\\\'".as_slice()
    );
    Ok(())
}
