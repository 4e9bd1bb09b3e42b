use hol_terms::{Konst, Term, Ty, arrow};
use std::alloc::Global;
use std::test::Fail;
use text_kit::{Bytes, NoMemory, Rows, Shared};
use theory_print::{Vocabulary, fresh_number, has_text, put_sentence, put_type, read_again};
use theory_terms::Decl;

const SENTENCE: &[u8] = b"! x1_0 : n . p x1_0 ==> ~ ( p c & ( p c ==> true ) ) ";

const TYPE: &[u8] = b"( n -> bool ) -> n -> n ";

fn app(alloc: Global, f: Term, x: Term) -> Result<Term, NoMemory> {
    let head = Shared::new(alloc, f)?;
    let arg = Shared::new(alloc, x)?;
    Ok(Term::App(head, arg))
}

fn named(place: u32) -> Term {
    Term::Con(Konst::Named(place))
}

#[tactic(none)]
fn join(alloc: Global, sign: Konst, a: Term, b: Term) -> Result<Term, NoMemory> {
    let half = app(alloc, Term::Con(sign), a)?;
    app(alloc, half, b)
}

// `p c`, with the constants 0 and 1
#[tactic(none)]
fn holds(alloc: Global, x: Term) -> Result<Term, NoMemory> {
    app(alloc, named(1), x)
}

// `~(p c & (p c ==> true))`
#[tactic(none)]
fn denied(alloc: Global) -> Result<Term, NoMemory> {
    let inner = join(
        alloc,
        Konst::Imp,
        holds(alloc, named(0))?,
        Term::Con(Konst::True),
    )?;
    let both = join(alloc, Konst::And, holds(alloc, named(0))?, inner)?;
    app(alloc, Term::Con(Konst::Not), both)
}

// `!x:n. p x ==> ~(p c & (p c ==> true))`
#[tactic(none)]
fn sentence(alloc: Global) -> Result<Term, NoMemory> {
    let body = join(
        alloc,
        Konst::Imp,
        holds(alloc, Term::Bound(0))?,
        denied(alloc)?,
    )?;
    let inner = Shared::new(alloc, body)?;
    app(
        alloc,
        Term::Con(Konst::All(Ty::Base(1))),
        Term::Lam(Ty::Base(1), inner),
    )
}

#[tactic(none)]
fn declare(alloc: Global, consts: &mut Rows<Decl>, name: &[u8], ty: Ty) -> Result<(), NoMemory> {
    let name = Bytes::from_slice(alloc, name)?;
    consts.push(Decl { name, ty })
}

// `const c : n; const p : n -> bool; const x0_c : bool;`
#[tactic(none)]
fn declared(alloc: Global) -> Result<Rows<Decl>, NoMemory> {
    let mut consts = Rows::begin(alloc);
    declare(alloc, &mut consts, b"c", Ty::Base(1))?;
    declare(
        alloc,
        &mut consts,
        b"p",
        arrow(alloc, Ty::Base(1), Ty::Base(0))?,
    )?;
    declare(alloc, &mut consts, b"x0_c", Ty::Base(0))?;
    Ok(consts)
}

fn put_all(alloc: Global, types: &[Bytes], consts: &[Decl], t: &Term) -> Result<Bytes, NoMemory> {
    let number = fresh_number(alloc, consts)?;
    let mut out = Bytes::begin(alloc);
    put_sentence(
        &mut out,
        &Vocabulary {
            types,
            consts,
            number,
        },
        t,
    )?;
    Ok(out)
}

#[tactic(none)]
fn types_of(alloc: Global) -> Result<Rows<Bytes>, NoMemory> {
    let mut types = Rows::begin(alloc);
    types.push(Bytes::from_slice(alloc, b"n")?)?;
    Ok(types)
}

// No constant begins as `x1_0`.
#[tactic(none)]
fn sentence_is_printed(alloc: Global) -> Result<bool, NoMemory> {
    let types = types_of(alloc)?;
    let consts = declared(alloc)?;
    let t = sentence(alloc)?;
    let out = put_all(alloc, types.as_slice(), consts.as_slice(), &t)?;
    Ok(out.as_slice() == SENTENCE)
}

// `(n -> bool) -> n -> n`
#[tactic(none)]
fn type_is_printed(alloc: Global) -> Result<bool, NoMemory> {
    let types = types_of(alloc)?;
    let from = arrow(alloc, Ty::Base(1), Ty::Base(0))?;
    let ty = arrow(alloc, from, arrow(alloc, Ty::Base(1), Ty::Base(1))?)?;
    let mut out = Bytes::begin(alloc);
    put_type(&mut out, types.as_slice(), &ty)?;
    Ok(out.as_slice() == TYPE)
}

#[test]
fn prints(rt: HostRuntime) -> Result<(), Fail> {
    let alloc = rt.alloc();
    read_again();
    let printed = match (sentence_is_printed(alloc), type_is_printed(alloc)) {
        (Ok(sentence), Ok(ty)) => sentence && ty,
        _ => false,
    };
    assert!(rt; printed);
    assert!(rt; !has_text(&Term::Free(0, Ty::Base(0))));
    Ok(())
}
