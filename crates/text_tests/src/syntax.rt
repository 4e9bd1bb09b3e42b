use std::test::Fail;
use theory_syntax::{Fault, Item, Quant, Tok, Tree, Word, read};

fn word(start: u64) -> Tok {
    Tok::Word(Word { start, len: 1 })
}

#[test]
fn places(rt: HostRuntime) -> Result<(), Fail> {
    let alloc = rt.alloc();
    // goal g : !x:t->u. (f x) = y ==> p assume h : ~q;
    let good = [
        Tok::Goal,
        word(5),
        Tok::Colon,
        Tok::Quant(Quant::All, 9),
        word(10),
        Tok::Colon,
        word(12),
        Tok::Arrow,
        word(15),
        Tok::Dot,
        Tok::Open(18),
        word(19),
        word(21),
        Tok::Close,
        Tok::Equal,
        word(26),
        Tok::Imp,
        word(32),
        Tok::Assume,
        word(41),
        Tok::Colon,
        Tok::Tilde(45),
        word(46),
        Tok::Semi,
    ];
    match read(alloc, 2, &good) {
        Ok(items) => match items.get(0) {
            Some(Item::Goal(_, Tree::Bind(_, at, _, _, _), hyps)) => {
                assert!(rt; *at == 9);
                assert!(rt; hyps.len() == 1);
            }
            _ => assert!(rt; false),
        },
        Err(_) => assert!(rt; false),
    }
    // The name behind the bracket stands at level 2.
    assert!(rt; read(alloc, 1, &good).err() == Some(Fault::TooDeep(11)));
    // No second `=`, no declaration that isn't closed, nothing behind a declaration but another one.
    let twice = [
        Tok::Fact,
        word(0),
        Tok::Colon,
        word(1),
        Tok::Equal,
        word(2),
        Tok::Equal,
        word(3),
        Tok::Semi,
    ];
    assert!(rt; read(alloc, 256, &twice).err() == Some(Fault::Syntax(6)));
    assert!(rt; read(alloc, 256, &twice[..6]).err() == Some(Fault::Syntax(6)));
    let stray = [Tok::Type, word(0), Tok::Semi, Tok::Semi];
    assert!(rt; read(alloc, 256, &stray).err() == Some(Fault::Syntax(3)));
    assert!(rt; read(alloc, 256, &stray[..3]).is_ok());
    Ok(())
}
