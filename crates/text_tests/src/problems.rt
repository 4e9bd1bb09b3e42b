use std::alloc::Global;
use std::test::Fail;
use text_kit::{Bytes, NoMemory, Rows};
use theory_reader::{Theory, read};
use tptp_print::problem_text;

const SMALL: &[u8] = b"const p : bool; const q : bool; fact f1 : p; fact f2 : ~p | q; goal g : q;";

const SMALL_PROBLEM: &[u8] = b"fof(f_f2, axiom, ((~ holds(t0(c_p))) | holds(t0(c_q)))).
fof(f_f1, axiom, holds(t0(c_p))).
fof(goal, conjecture, holds(t0(c_q))).
";

/// Equations, a function that is called with a lambda, and a quantifier on a constant.
const LARGE: &[u8] =
    b"type nat; const zero : nat; const suc : nat -> nat; const add : nat -> nat -> nat;
const map : (nat -> nat) -> nat -> nat; const r : nat -> bool;
fact add_zero : !m:nat. add m zero = m; fact some : ?x:nat. (r x) = true;
goal two : map (\\y:nat. suc y) zero = suc zero;";

const LARGE_PROBLEM: &[u8] =
    b"fof(f_some, axiom, (? [X0] : (holds(t0(app(t1(c_r),t2(X0)))) <=> $true))).
fof(f_add_zero, axiom, (! [X0] : (t2(app(t3(app(t4(c_add),t2(X0))),t2(c_zero))) = t2(X0)))).
fof(goal, conjecture, ((! [X0] : (t2(app(t3(l_0),t2(X0))) = t2(app(t3(c_suc),t2(X0))))) => (t2(app(t3(app(t5(c_map),t3(l_0))),t2(c_zero))) = t2(app(t3(c_suc),t2(c_zero)))))).
";

/// The problem of goal 0 with the facts of two numbers.
fn problem(alloc: Global, theory: &Theory, first: u32, second: u32) -> Result<Bytes, NoMemory> {
    if theory.goals.len() == 0 {
        return Err(NoMemory);
    }
    let seen = theory.seen_names(alloc, 0)?;
    if first >= seen.len() || second >= seen.len() {
        return Err(NoMemory);
    }
    let mut facts = Rows::begin(alloc);
    facts.push(first)?;
    facts.push(second)?;
    problem_text(alloc, theory, 0, &facts)
}

/// Whether this is the problem of the text's goal 0 with its second fact and then its first.
fn is_problem(alloc: Global, text: &[u8], wanted: &[u8]) -> bool {
    if text.len() > 1000 {
        return false;
    }
    let Ok(theory) = read(alloc, text) else {
        return false;
    };
    match problem(alloc, &theory, 1, 0) {
        Ok(out) => out.as_slice() == wanted,
        Err(NoMemory) => false,
    }
}

#[test]
fn problems_are_written(rt: HostRuntime) -> Result<(), Fail> {
    assert!(rt; is_problem(rt.alloc(), SMALL, SMALL_PROBLEM));
    assert!(rt; is_problem(rt.alloc(), LARGE, LARGE_PROBLEM));
    Ok(())
}
