use hol_terms::{Konst, Term, Ty, arrow, same_ty};
use std::alloc::Global;
use std::test::Fail;
use text_kit::{NoMemory, Rows, Shared};
use theory_syntax::{Op, Quant, Tree, TyTree, Word};
use theory_terms::{Known, Names, TheoryFault, TheoryKind, read_sentence, read_type, word_at};

// A type, two constants and two variables, each a word of one byte.
const TEXT: &[u8] = b"n c p x y";

const TYPE: u64 = 0;

const VALUE: u64 = 2;

const TEST: u64 = 4;

const VARIABLE: u64 = 6;

const OTHER: u64 = 8;

fn word(start: u64) -> Word {
    Word { start, len: 1 }
}

fn add_type<'t>(known: &mut Known<'t>, name: &'t [u8]) -> Result<(), NoMemory> {
    match known.base_of(name) {
        Some(_) => Err(NoMemory),
        None => known.add_type(name),
    }
}

fn add_const<'t>(
    alloc: Global,
    known: &mut Known<'t>,
    name: &'t [u8],
    ty: Ty,
) -> Result<(), NoMemory> {
    if known.has_const(name) {
        return Err(NoMemory);
    }
    known.add_const(alloc, name, &ty)
}

// `type n; const c : n; const p : n -> bool;`
fn declared<'t>(alloc: Global, text: &'t [u8]) -> Result<Known<'t>, NoMemory> {
    let mut known = Known::begin(alloc);
    add_type(&mut known, word_at(text, word(TYPE)))?;
    add_const(alloc, &mut known, word_at(text, word(VALUE)), Ty::Base(1))?;
    let test = arrow(alloc, Ty::Base(1), Ty::Base(0))?;
    add_const(alloc, &mut known, word_at(text, word(TEST)), test)?;
    Ok(known)
}

fn apply(alloc: Global, f: u64, x: u64) -> Result<Tree, NoMemory> {
    let mut args = Rows::begin(alloc);
    args.push(Tree::Name(word(x)))?;
    let head = Shared::new(alloc, Tree::Name(word(f)))?;
    Ok(Tree::Apply(head, args))
}

#[tactic(none)]
fn bind(alloc: Global, q: Quant, x: u64, body: Tree) -> Result<Tree, NoMemory> {
    let inner = Shared::new(alloc, body)?;
    Ok(Tree::Bind(q, 1, word(x), TyTree::Named(word(TYPE)), inner))
}

// `!x:n. p x`, with the variable as index 0
#[tactic(none)]
fn is_all_p(t: &Term) -> bool {
    match t {
        Term::App(k, l) => match (k.get(), l.get()) {
            (Term::Con(Konst::All(Ty::Base(1))), Term::Lam(Ty::Base(1), body)) => match body.get() {
                Term::App(f, x) => match (f.get(), x.get()) {
                    (Term::Con(Konst::Named(1)), Term::Bound(0)) => true,
                    _ => false,
                },
                _ => false,
            },
            _ => false,
        },
        _ => false,
    }
}

fn reads(alloc: Global, known: &mut Known, x: u64) -> Result<Term, TheoryFault> {
    let body = apply(alloc, TEST, x)?;
    let tree = bind(alloc, Quant::All, x, body)?;
    read_sentence(alloc, TEXT, known, &tree)
}

fn arrow_reads(alloc: Global, known: &Known) -> Result<bool, TheoryFault> {
    let from = Shared::new(alloc, TyTree::Named(word(TYPE)))?;
    let to = Shared::new(alloc, TyTree::Bool)?;
    let read = read_type(alloc, TEXT, known, &TyTree::Arrow(from, to))?;
    Ok(same_ty(&read, &arrow(alloc, Ty::Base(1), Ty::Base(0))?))
}

// What is read is a conjunction of the sentence and its negation, from `(!x:n. p x) & ~(!x:n. p x)`.
fn joined(alloc: Global, q: Quant) -> Result<Tree, NoMemory> {
    let left = bind(alloc, q, VARIABLE, apply(alloc, TEST, VARIABLE)?)?;
    let bracket = Shared::new(alloc, left)?;
    let right = bind(alloc, q, VARIABLE, apply(alloc, TEST, VARIABLE)?)?;
    let negated = Shared::new(alloc, right)?;
    let a = Shared::new(alloc, Tree::Round(0, bracket))?;
    let b = Shared::new(alloc, Tree::Not(7, negated))?;
    Ok(Tree::Join(Op::And, a, b))
}

#[tactic(none)]
fn has_fault(alloc: Global, known: &mut Known, tree: &Tree, at: u64, kind: TheoryKind) -> bool {
    match read_sentence(alloc, TEXT, known, tree) {
        Err(
            TheoryFault::At {
                at: place,
                kind: found,
            },
        ) => place == at && found == kind,
        _ => false,
    }
}

// Heads and arguments, with the place and the kind of the fault.
const FAULTS: [(u64, u64, u64, TheoryKind); 3] = [
    (TEST, OTHER, 8, TheoryKind::Unknown),
    (VALUE, TEST, 2, TheoryKind::IllTyped),
    (TEST, TEST, 4, TheoryKind::IllTyped),
];

fn applications(alloc: Global, known: &mut Known) -> Result<bool, NoMemory> {
    for (f, x, at, kind) in &FAULTS {
        let tree = apply(alloc, *f, *x)?;
        if !has_fault(alloc, &mut *known, &tree, *at, *kind) {
            return Ok(false);
        }
    }
    Ok(true)
}

// A lambda may have any body, and is no formula.
#[tactic(none)]
fn lambda(alloc: Global, known: &mut Known) -> Result<bool, NoMemory> {
    let tree = bind(alloc, Quant::Lambda, VARIABLE, Tree::Name(word(VARIABLE)))?;
    Ok(has_fault(alloc, known, &tree, 1, TheoryKind::NotBool))
}

// A chosen value is no formula, so it isn't joined to one.
#[tactic(none)]
fn chosen(alloc: Global, known: &mut Known) -> Result<bool, NoMemory> {
    let tree = joined(alloc, Quant::Eps)?;
    Ok(has_fault(alloc, known, &tree, 0, TheoryKind::IllTyped))
}

#[tactic(none)]
fn existence(alloc: Global, known: &mut Known) -> Result<bool, NoMemory> {
    let tree = joined(alloc, Quant::Ex)?;
    Ok(read_sentence(alloc, TEXT, known, &tree).is_ok())
}

#[tactic(none)]
fn same_under_both_names(alloc: Global, known: &mut Known) -> Result<bool, TheoryFault> {
    let first = is_all_p(&reads(alloc, &mut *known, VARIABLE)?);
    Ok(first && is_all_p(&reads(alloc, known, OTHER)?))
}

fn parts(alloc: Global) -> Result<bool, NoMemory> {
    let known = declared(alloc, TEXT)?;
    let held = known.has_const(word_at(TEXT, word(TEST)));
    let (types, consts) = known.into_parts(alloc)?;
    Ok(held && types.len() == 1 && consts.len() == 2)
}

fn one_name(alloc: Global) -> Result<bool, NoMemory> {
    let mut names = Names::begin(alloc);
    let name = word_at(TEXT, word(VALUE));
    if names.place(name).is_some() {
        return Ok(false);
    }
    names.add(name)?;
    let copies = names.copies(alloc)?;
    Ok(names.len() == 1 && names.place(name) == Some(0) && copies.len() == 1)
}

fn readings(alloc: Global) -> Result<bool, TheoryFault> {
    let mut known = declared(alloc, TEXT)?;
    let types = arrow_reads(alloc, &known)?;
    let sentences = same_under_both_names(alloc, &mut known)?;
    Ok(types && sentences && existence(alloc, &mut known)?)
}

fn faults(alloc: Global) -> Result<bool, NoMemory> {
    let mut known = declared(alloc, TEXT)?;
    let found = applications(alloc, &mut known)?;
    let bound = lambda(alloc, &mut known)?;
    Ok(found && bound && chosen(alloc, &mut known)?)
}

#[test]
fn names_are_found(rt: HostRuntime) -> Result<(), Fail> {
    assert!(rt; one_name(rt.alloc())?);
    assert!(rt; parts(rt.alloc())?);
    Ok(())
}

#[test]
fn sentences_are_read(rt: HostRuntime) -> Result<(), Fail> {
    assert!(rt; readings(rt.alloc())?);
    Ok(())
}

#[test]
fn faults_have_places(rt: HostRuntime) -> Result<(), Fail> {
    assert!(rt; faults(rt.alloc())?);
    Ok(())
}
