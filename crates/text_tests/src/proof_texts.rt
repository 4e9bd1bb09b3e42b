use hol_terms::{Konst, Term, Ty, arrow};
use kernel_rules::{Step, ThmId, apply, lambda};
use proof_text::{one_text, print_proof};
use std::alloc::Global;
use std::test::Fail;
use text_kit::{NoMemory, Rows};
use theory_reader::{Theory, read};

const SMALL: &[u8] = b"const p : bool; const q : bool; fact f1 : p; fact f2 : ~p | q; goal g : q;";

const SMALL_PROOF: &[u8] = b"sledge proof 1
goal g
0 fact f1
1 fact f2
2 assume (not .p)
3 notelim 2 0
4 classical .q 3
5 assume .q
6 orelim 1 4 5
end
";

/// A goal with a fact before it, one behind it, and an assumption.
const LARGE: &[u8] = b"type nat; const z : nat; const p : nat -> bool;
fact f : true; goal g : true assume h : true; fact later : true;";

/// Each rule, and each form of terms and of types.
const LARGE_PROOF: &[u8] = b"sledge proof 1
goal g
0 fact f
1 fact h
2 assume #0
3 impintro $3:nat 0
4 impelim 1 0
5 andintro 0 1
6 andleft 5
7 andright 5
8 orleft true 0
9 orright false 0
10 orelim 8 0 1
11 notintro not 0
12 notelim 11 0
13 trueintro
14 classical and 0
15 allintro 18446744073709551615 nat 0
16 allelim or 15
17 exintro imp .z 0
18 choose 17
19 refl (eps[nat] {nat}(.p #0))
20 subst eq[nat] 19 0
21 beta all[(nat>bool)]
22 abs 0 (bool>(nat>nat)) 0
23 iff 0 1
24 inst 7 bool ex[bool] 0
end
";

#[tactic(none)]
fn named(number: u32) -> Term {
    Term::Con(Konst::Named(number))
}

#[tactic(none)]
fn put_small(alloc: Global, steps: &mut Rows<Step>) -> Result<(), NoMemory> {
    let not_p = apply(alloc, Term::Con(Konst::Not), named(0))?;
    steps.push(Step::Fact(0))?;
    steps.push(Step::Fact(1))?;
    steps.push(Step::Assume(not_p))?;
    steps.push(Step::NotElim(ThmId(2), ThmId(0)))?;
    steps.push(Step::Classical(named(1), ThmId(3)))?;
    steps.push(Step::Assume(named(1)))?;
    steps.push(Step::OrElim(ThmId(1), ThmId(4), ThmId(5)))
}

fn small_steps(alloc: Global) -> Result<Rows<Step>, NoMemory> {
    let mut steps = Rows::begin(alloc);
    put_small(alloc, &mut steps)?;
    Ok(steps)
}

#[tactic(none)]
fn nat() -> Ty {
    Ty::Base(1)
}

#[tactic(none)]
fn put_first(steps: &mut Rows<Step>) -> Result<(), NoMemory> {
    steps.push(Step::Fact(0))?;
    steps.push(Step::Fact(1))?;
    steps.push(Step::Assume(Term::Bound(0)))?;
    steps.push(Step::ImpIntro(Term::Free(3, nat()), ThmId(0)))?;
    steps.push(Step::ImpElim(ThmId(1), ThmId(0)))?;
    steps.push(Step::AndIntro(ThmId(0), ThmId(1)))?;
    steps.push(Step::AndLeft(ThmId(5)))?;
    steps.push(Step::AndRight(ThmId(5)))?;
    steps.push(Step::OrLeft(Term::Con(Konst::True), ThmId(0)))?;
    steps.push(Step::OrRight(Term::Con(Konst::False), ThmId(0)))?;
    steps.push(Step::OrElim(ThmId(8), ThmId(0), ThmId(1)))?;
    steps.push(Step::NotIntro(Term::Con(Konst::Not), ThmId(0)))?;
    steps.push(Step::NotElim(ThmId(11), ThmId(0)))
}

#[tactic(none)]
fn put_middle(steps: &mut Rows<Step>) -> Result<(), NoMemory> {
    steps.push(Step::TrueIntro)?;
    steps.push(Step::Classical(Term::Con(Konst::And), ThmId(0)))?;
    steps.push(Step::AllIntro(u64::MAX, nat(), ThmId(0)))?;
    steps.push(Step::AllElim(Term::Con(Konst::Or), ThmId(15)))?;
    steps.push(Step::ExIntro(Term::Con(Konst::Imp), named(0), ThmId(0)))?;
    steps.push(Step::Choose(ThmId(17)))
}

/// Some number with the property `p`.
#[tactic(none)]
fn chosen(alloc: Global) -> Result<Term, NoMemory> {
    let body = apply(alloc, named(1), Term::Bound(0))?;
    let property = lambda(alloc, nat(), body)?;
    apply(alloc, Term::Con(Konst::Eps(nat())), property)
}

#[tactic(none)]
fn put_last(alloc: Global, steps: &mut Rows<Step>) -> Result<(), NoMemory> {
    let property = arrow(alloc, nat(), Ty::Base(0))?;
    let maps = arrow(alloc, nat(), nat())?;
    let picks = arrow(alloc, Ty::Base(0), maps)?;
    steps.push(Step::Refl(chosen(alloc)?))?;
    steps.push(Step::Subst(Term::Con(Konst::Eq(nat())), ThmId(19), ThmId(0)))?;
    steps.push(Step::Beta(Term::Con(Konst::All(property))))?;
    steps.push(Step::Abs(0, picks, ThmId(0)))?;
    steps.push(Step::Iff(ThmId(0), ThmId(1)))?;
    let some = Term::Con(Konst::Ex(Ty::Base(0)));
    steps.push(Step::Inst(7, Ty::Base(0), some, ThmId(0)))
}

fn large_steps(alloc: Global) -> Result<Rows<Step>, NoMemory> {
    let mut steps = Rows::begin(alloc);
    put_first(&mut steps)?;
    put_middle(&mut steps)?;
    put_last(alloc, &mut steps)?;
    Ok(steps)
}

/// What a text that isn't too long reads as.
fn read_short(alloc: Global, text: &[u8]) -> Option<Theory> {
    if text.len() < 0xffff_ffff {
        read(alloc, text).ok()
    } else {
        None
    }
}

fn prints(
    alloc: Global,
    theory: &Theory,
    steps: &Rows<Step>,
    want: &[u8],
) -> Result<bool, NoMemory> {
    if theory.goals.len() == 0 {
        return Ok(false);
    }
    let out = print_proof(alloc, theory, 0, steps)?;
    Ok(out.as_slice() == want)
}

#[tactic(none)]
fn is_printed(
    alloc: Global,
    theory: &[u8],
    steps: &Rows<Step>,
    want: &[u8],
) -> Result<bool, NoMemory> {
    match read_short(alloc, theory) {
        Some(theory) => prints(alloc, &theory, steps, want),
        None => Ok(false),
    }
}

#[test]
fn proofs_are_printed(rt: HostRuntime) -> Result<(), Fail> {
    let alloc = rt.alloc();
    let small = is_printed(alloc, SMALL, &small_steps(alloc)?, SMALL_PROOF)?;
    assert!(rt; small);
    let large = is_printed(alloc, LARGE, &large_steps(alloc)?, LARGE_PROOF)?;
    assert!(rt; large);
    one_text();
    Ok(())
}
