use hol_terms::{same, same_ty};
use std::alloc::Global;
use std::test::Fail;
use text_kit::{Bytes, Rows};
use theory_gen::make;
use theory_reader::{Decl, Fact, Goal, Theory, read};
use theory_text::print;

/// Two goals, one with an assumption that is named as no fact is.
const ASSUMED: &[u8] =
    b"const p : bool; const q : bool; fact f : p ==> q; goal g : q assume h : p; goal k : q;";

/// Each sign, brackets that count and brackets that don't, variables that hide one another, and a constant named as variables are.
const SIGNS: &[u8] =
    b"type n; type m; const x0_0 : n; const f : (n -> m) -> n -> bool; const g : n -> m; const s : n -> n;
goal none : true;
fact a : !x:n. ?y:n -> m. f y x ==> (f (\\x:n. y (s x)) x ==> ~(true & false)) | ~f g (s (s x));
fact b : ((@x:n. x = x0_0) = x0_0) = (~(false ==> true)) & (!x:m -> n. ?x:(m -> n) -> bool. true);
goal c : (true ==> false) ==> false assume d : (true | false) | true assume e : (!x:n. f g x) = (?x:n. !x:n. f g x);";

#[tactic(none)]
fn same_names(one: &Rows<Bytes>, other: &Rows<Bytes>) -> bool {
    if one.len() != other.len() {
        return false;
    }
    for (a, b) in one.as_slice().iter().zip(other.as_slice()) {
        if a.as_slice() != b.as_slice() {
            return false;
        }
    }
    true
}

#[tactic(none)]
fn same_consts(one: &[Decl], other: &[Decl]) -> bool {
    if one.len() != other.len() {
        return false;
    }
    for (a, b) in one.iter().zip(other) {
        if a.name.as_slice() != b.name.as_slice() || !same_ty(&a.ty, &b.ty) {
            return false;
        }
    }
    true
}

#[tactic(none)]
fn same_facts(one: &[Fact], other: &[Fact]) -> bool {
    if one.len() != other.len() {
        return false;
    }
    for (a, b) in one.iter().zip(other) {
        if a.name.as_slice() != b.name.as_slice() || !same(&a.formula, &b.formula) {
            return false;
        }
    }
    true
}

#[tactic(none)]
fn same_goal(one: &Goal, other: &Goal) -> bool {
    one.name.as_slice() == other.name.as_slice()
        && same(&one.formula, &other.formula)
        && one.before == other.before
        && same_facts(one.assumes.as_slice(), other.assumes.as_slice())
}

#[tactic(none)]
fn same_goals(one: &[Goal], other: &[Goal]) -> bool {
    if one.len() != other.len() {
        return false;
    }
    for (a, b) in one.iter().zip(other) {
        if !same_goal(a, b) {
            return false;
        }
    }
    true
}

#[tactic(none)]
fn same_theory(one: &Theory, other: &Theory) -> bool {
    same_names(&one.types, &other.types)
        && same_consts(one.consts.as_slice(), other.consts.as_slice())
        && same_facts(one.facts.as_slice(), other.facts.as_slice())
        && same_goals(one.goals.as_slice(), other.goals.as_slice())
}

/// What a text that isn't too long reads as.
fn read_short(alloc: Global, text: &[u8]) -> Option<Theory> {
    if text.len() < 0xffff_ffff {
        read(alloc, text).ok()
    } else {
        None
    }
}

#[tactic(none)]
fn reads_as(alloc: Global, text: &[u8], theory: &Theory) -> bool {
    match read_short(alloc, text) {
        Some(again) => same_theory(theory, &again),
        None => false,
    }
}

#[tactic(none)]
fn is_printed(alloc: Global, theory: &Theory) -> bool {
    match print(alloc, theory) {
        Ok(out) => reads_as(alloc, out.as_slice(), theory),
        Err(_) => false,
    }
}

/// Whether the text is read, and its print is read as the same theory.
#[tactic(none)]
fn is_read_again(alloc: Global, text: &[u8]) -> bool {
    match read_short(alloc, text) {
        Some(theory) => is_printed(alloc, &theory),
        None => false,
    }
}

fn made_is_read_again(alloc: Global) -> bool {
    match make(alloc, 20_000) {
        Ok(text) => is_read_again(alloc, text.as_slice()),
        Err(_) => false,
    }
}

#[tactic(none)]
fn is_print(alloc: Global, theory: &Theory, want: &[u8]) -> bool {
    match print(alloc, theory) {
        Ok(out) => out.as_slice() == want,
        Err(_) => false,
    }
}

/// Whether this is what is printed of what the text reads as.
#[tactic(none)]
fn prints(alloc: Global, text: &[u8], want: &[u8]) -> bool {
    match read_short(alloc, text) {
        Some(theory) => is_print(alloc, &theory, want),
        None => false,
    }
}

#[test]
fn what_is_printed_is_read_again(rt: HostRuntime) -> Result<(), Fail> {
    let alloc = rt.alloc();
    assert!(rt; is_read_again(alloc, b""));
    assert!(rt; is_read_again(alloc, ASSUMED));
    assert!(rt; is_read_again(alloc, SIGNS));
    assert!(rt; made_is_read_again(alloc));
    Ok(())
}

#[test]
fn brackets_are_few(rt: HostRuntime) -> Result<(), Fail> {
    let alloc = rt.alloc();
    let text = b"type n; const x0_ : n -> n; goal g : ((!y:(n). ((x0_ y) = y))) ==> (true);";
    let want =
        b"type n ;\nconst x0_ : n -> n ;\ngoal g : ( ! x1_0 : n . x0_ x1_0 = x1_0 ) ==> true ;\n";
    assert!(rt; prints(alloc, text.as_slice(), want.as_slice()));
    Ok(())
}
