use crate::{
    Konst, Sig, Term, Ty, abstract_over, arrow, free_in, has_type, instantiate, is_formula,
    is_sentence, put_free, put_together, same,
};
use std::alloc::Global;
use std::test::Fail;
use text_kit::{NoMemory, Rows, Shared};

/// One constant `c : bool`, and one base type besides bool.
fn signature(alloc: Global) -> Result<Sig, NoMemory> {
    let mut consts = Rows::begin(alloc);
    consts.push(Ty::Base(0))?;
    Ok(Sig {
        types: 2,
        consts,
        aux: Rows::begin(alloc),
    })
}

fn negation(alloc: Global, t: Term) -> Result<Term, NoMemory> {
    let head = Shared::new(alloc, Term::Con(Konst::Not))?;
    let arg = Shared::new(alloc, t)?;
    Ok(Term::App(head, arg))
}

/// The lambda `\x. c`, made by putting `c` into `\x. #1`.
fn constant_function(alloc: Global) -> Result<Term, NoMemory> {
    let inside = Shared::new(alloc, Term::Bound(1))?;
    instantiate(
        alloc,
        &Term::Lam(Ty::Base(1), inside),
        &Term::Con(Konst::Named(0)),
    )
}

#[test]
fn constant_functions_have_their_type(rt: HostRuntime) -> Result<(), Fail> {
    let alloc = rt.alloc();
    let whole = constant_function(alloc)?;
    let wanted = arrow(alloc, Ty::Base(1), Ty::Base(0))?;
    let typed = has_type(alloc, &signature(alloc)?, &whole, &wanted)?;
    assert!(rt; typed);
    Ok(())
}

#[test]
fn variables_are_replaced_by_number_and_type(rt: HostRuntime) -> Result<(), Fail> {
    let alloc = rt.alloc();
    let before = negation(alloc, Term::Free(7, Ty::Base(0)))?;
    assert!(rt; free_in(7, &Ty::Base(0), &before));
    assert!(rt; !free_in(7, &Ty::Base(1), &before));
    let after = put_free(alloc, &before, 7, &Ty::Base(0), &Term::Con(Konst::True))?;
    let wanted = negation(alloc, Term::Con(Konst::True))?;
    assert!(rt; same(&after, &wanted));
    Ok(())
}

#[test]
fn a_variable_becomes_an_index(rt: HostRuntime) -> Result<(), Fail> {
    let body = abstract_over(rt.alloc(), &Term::Free(7, Ty::Base(0)), 7, &Ty::Base(0))?;
    assert!(rt; same(&body, &Term::Bound(0)));
    Ok(())
}

#[test]
fn sentences_have_no_variable(rt: HostRuntime) -> Result<(), Fail> {
    let alloc = rt.alloc();
    let env = put_together(
        alloc,
        signature(alloc)?,
        Rows::begin(alloc),
        Term::Con(Konst::Named(0)),
    )?;
    let formula = is_formula(alloc, &env.sig, &Term::Free(0, Ty::Base(0)))?;
    assert!(rt; formula);
    let sentence = is_sentence(alloc, &env.sig, &Term::Free(0, Ty::Base(0)))?;
    assert!(rt; !sentence);
    Ok(())
}
