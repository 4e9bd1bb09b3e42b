ghost use Rattle.std.specs.Prelude.{◌≡◌, ◌↔◌, ◌++◌, ℕ, false, IsTrue, IfOk, OnOk, List, map, length, All, Contains};
ghost use Rattle.fo_unify.specs.declared.subst.Bind.{Bind};
ghost use Rattle.std.specs.List.{zip};
ghost use Rattle.fo_terms.specs.declared.term.FoTerm.{FoTerm};
ghost use Rattle.fo_terms.specs.Substitution.{var, put, occurs_in, occurs_in_any};
ghost use Rattle.fo_unify.specs.Unifier.{Equates, Unifies};
ghost use Rattle.fo_unify.specs.inner.Triangle.{walked, stepped, Good, solution, Lacks};
ghost use Rattle.fo_unify.specs.Shown.{as_bind, as_binds, shown};
ghost use Rattle.fo_unify.specs.inner.Leads.{BoundTo, Goes, Leads};

use fo_terms::FoTerm;
use std::alloc::Global;
use text_kit::{NoMemory, Rows};

/// A binding whose term is lent.
#[derive(Clone, Copy, Drop)]
pub struct Held<'a> {
    pub var: u64,
    pub term: &'a FoTerm,
}

/// Two terms that are to become equal.
#[derive(Clone, Copy, Drop)]
pub struct Equation<'a> {
    pub left: &'a FoTerm,
    pub right: &'a FoTerm,
}

/// What an equation, or all that are left, come to.
#[derive(Clone, Copy, Drop)]
pub enum Found<'a> {
    /// it is replaced by equations of the arguments; nothing is left
    Done,
    /// no substitution solves it
    Clash,
    /// it says what stands for this variable
    Binds(u64, &'a FoTerm),
}

fn step<'a>(b: &Held<'a>, t: &'a FoTerm) -> &'a FoTerm
    ensures { result.now ≡ stepped (as_bind b.now) t.now }
{
    match t {
        FoTerm::Var(y) => if b.var == *y { b.term } else { t },
        FoTerm::Fun(_, _) => t,
    }
}

pub fn walk<'a>(binds: &[Held<'a>], t: &'a FoTerm) -> &'a FoTerm
    ensures { result.now ≡ walked (as_binds binds.now) t.now }
{
    let mut at = t;
    for b in binds {
        if let FoTerm::Fun(_, _) = at {
            return at;
        }
        at = step(b, at);
    }
    at
}

/// Whether the number is there.
fn is_noted(seen: &[u64], x: u64) -> bool
    ensures { IsTrue result → Contains seen.now x }
{
    for y in seen {
        if *y == x {
            return true;
        }
    }
    false
}

/// Whether the term is a variable that is there.
fn is_seen(seen: &[u64], t: &FoTerm) -> bool
    ensures { IsTrue result → (x : ℕ) × (t.now ≡ var x) × Contains seen.now x }
{
    match t {
        FoTerm::Var(x) => is_noted(seen, *x),
        FoTerm::Fun(_, _) => false,
    }
}

/// Notes the term where it is a variable.
fn see(seen: &mut Rows<u64>, t: &FoTerm) -> Result<(), NoMemory>
    ensures { OnOk result ((bs : List Bind) (x : ℕ) → occurs_in x (put (solution bs) t.now) ≡ false → All (Lacks bs x) seen.old → All (Lacks bs x) seen.new) }
{
    match t {
        FoTerm::Var(x) => {
            seen.push(*x)?;
            Ok(())
        }
        FoTerm::Fun(_, _) => Ok(()),
    }
}

/// Whether the variable stands in the term with the bindings put through it.
///
/// Each bound variable is looked through once: those whose terms don't hold it are noted.
#[cycle(reaching)]
pub fn reaches(binds: &[Held], x: u64, t: &FoTerm, seen: &mut Rows<u64>) -> Result<bool, NoMemory>
    requires good { Good (as_binds binds.now) }
    requires seen { All (Lacks (as_binds binds.now) x) seen.old }
    ensures reaches { IfOk result (λ r. r ≡ occurs_in x (put (solution (as_binds binds.now)) t.now)) }
    ensures seen { IfOk result (λ r. All (Lacks (as_binds binds.now) x) seen.new) }
{
    if is_seen(seen.as_slice(), &*t) {
        return Ok(false);
    }
    match walk(&*binds, &*t) {
        FoTerm::Var(y) => Ok(x == *y),
        FoTerm::Fun(_, args) => {
            if reaches_any(&*binds, x, args.as_slice(), seen)? {
                return Ok(true);
            }
            see(seen, t)?;
            Ok(false)
        }
    }
}

#[cycle(reaching)]
pub fn reaches_any(
    binds: &[Held],
    x: u64,
    ts: &[FoTerm],
    seen: &mut Rows<u64>,
) -> Result<bool, NoMemory>
    requires good { Good (as_binds binds.now) }
    requires seen { All (Lacks (as_binds binds.now) x) seen.old }
    ensures reaches { IfOk result (λ r. r ≡ occurs_in_any x (map (put (solution (as_binds binds.now))) ts.now)) }
    ensures seen { IfOk result (λ r. All (Lacks (as_binds binds.now) x) seen.new) }
{
    for t in ts {
        if reaches(&*binds, x, t, seen)? {
            return Ok(true);
        }
    }
    Ok(false)
}

/// Whether a pair of terms is there. Only pairs with a variable are.
fn is_known(known: &[Equation], s: &FoTerm, t: &FoTerm) -> bool
    ensures { IsTrue result → (v : ℕ → FoTerm) → Unifies v (shown known.now) → Equates v s.now t.now }
{
    if !is_short(s, t) {
        return false;
    }
    for e in known {
        if e.left.same(s) && e.right.same(t) {
            return true;
        }
    }
    false
}

/// Whether one of the terms is a variable, which may stand for a large term.
fn is_short(s: &FoTerm, t: &FoTerm) -> bool {
    match (s, t) {
        (FoTerm::Fun(_, _), FoTerm::Fun(_, _)) => false,
        (FoTerm::Var(_), FoTerm::Fun(_, _)) => true,
        (FoTerm::Fun(_, _), FoTerm::Var(_)) => true,
        (FoTerm::Var(_), FoTerm::Var(_)) => true,
    }
}

/// Notes a pair of terms that the bindings make the same, where one of them is a variable.
fn know<'a>(known: &mut Rows<Equation<'a>>, s: &'a FoTerm, t: &'a FoTerm) -> Result<(), NoMemory>
    ensures { OnOk result ((v : ℕ → FoTerm) → Equates v s.now t.now → Unifies v (shown known.old) → Unifies v (shown known.new)) }
{
    if is_short(s, t) {
        known.push(Equation { left: s, right: t })?;
    }
    Ok(())
}

/// Whether two terms are the same with the bindings put through them.
///
/// Each pair of a bound variable and another term is looked through once: those that are the same are noted.
#[cycle(agreeing)]
pub fn agree<'a>(
    binds: &[Held<'a>],
    s: &'a FoTerm,
    t: &'a FoTerm,
    known: &mut Rows<Equation<'a>>,
) -> Result<bool, NoMemory>
    requires good { Good (as_binds binds.now) }
    requires known { Unifies (solution (as_binds binds.now)) (shown known.old) }
    ensures same { IfOk result (λ r. IsTrue r ↔ Equates (solution (as_binds binds.now)) s.now t.now) }
    ensures known { IfOk result (λ r. Unifies (solution (as_binds binds.now)) (shown known.new)) }
{
    if is_known(known.as_slice(), s, t) {
        return Ok(true);
    }
    match (walk(&*binds, s), walk(&*binds, t)) {
        (FoTerm::Var(x), FoTerm::Var(y)) => Ok(*x == *y),
        (FoTerm::Var(_), FoTerm::Fun(_, _)) => Ok(false),
        (FoTerm::Fun(_, _), FoTerm::Var(_)) => Ok(false),
        (FoTerm::Fun(f, xs), FoTerm::Fun(g, ys)) => {
            if *f != *g {
                return Ok(false);
            }
            if !agree_all(&*binds, xs.as_slice(), ys.as_slice(), known)? {
                return Ok(false);
            }
            know(known, s, t)?;
            Ok(true)
        }
    }
}

#[cycle(agreeing)]
pub fn agree_all<'a>(
    binds: &[Held<'a>],
    ss: &'a [FoTerm],
    ts: &'a [FoTerm],
    known: &mut Rows<Equation<'a>>,
) -> Result<bool, NoMemory>
    requires good { Good (as_binds binds.now) }
    requires known { Unifies (solution (as_binds binds.now)) (shown known.old) }
    ensures same { IfOk result (λ r. IsTrue r ↔ (map (put (solution (as_binds binds.now))) ss.now ≡ map (put (solution (as_binds binds.now))) ts.now)) }
    ensures known { IfOk result (λ r. Unifies (solution (as_binds binds.now)) (shown known.new)) }
{
    if ss.len() != ts.len() {
        return Ok(false);
    }
    for i in 0..ss.len() {
        if !agree(&*binds, &ss[i], &ts[i], known)? {
            return Ok(false);
        }
    }
    Ok(true)
}

fn push_pairs<'a>(
    work: &mut Rows<Equation<'a>>,
    left: &'a [FoTerm],
    right: &'a [FoTerm],
) -> Result<(), NoMemory>
    requires { length left.now ≡ length right.now }
    ensures { OnOk result (shown work.new ≡ shown work.old ++ zip left.now right.now) }
{
    for i in 0..left.len() {
        work.push(Equation {
            left: &left[i],
            right: &right[i],
        })?;
    }
    Ok(())
}

/// A root variable is to become equal to a root.
fn bind<'a>(alloc: Global, binds: &[Held], x: u64, t: &'a FoTerm) -> Result<Found<'a>, NoMemory>
    requires { Good (as_binds binds.now) }
    ensures { IfOk result (λ r. BoundTo (as_binds binds.now) x t.now r) }
{
    let mut seen = Rows::begin(alloc);
    if reaches(binds, x, t, &mut seen)? {
        Ok(Found::Clash)
    } else {
        Ok(Found::Binds(x, t))
    }
}

/// Whether a bound variable is looked through here to find that nothing is left to do.
fn is_settled<'a>(
    alloc: Global,
    binds: &[Held<'a>],
    s: &'a FoTerm,
    t: &'a FoTerm,
) -> Result<bool, NoMemory>
    requires { Good (as_binds binds.now) }
    ensures { IfOk result (λ r. IsTrue r → Equates (solution (as_binds binds.now)) s.now t.now) }
{
    if !is_short(s, t) {
        return Ok(false);
    }
    let mut known = Rows::begin(alloc);
    let same = agree(binds, s, t, &mut known)?;
    Ok(same)
}

/// Takes an equation apart.
pub fn reduce<'a>(
    binds: &[Held<'a>],
    work: &mut Rows<Equation<'a>>,
    left: &'a FoTerm,
    right: &'a FoTerm,
) -> Result<Found<'a>, NoMemory>
    requires { Good (as_binds binds.now) }
    ensures { IfOk result (λ r. Goes (as_binds binds.now) left.now right.now (shown work.old) (shown work.new) r) }
{
    let alloc = work.allocator();
    let s = walk(&*binds, left);
    let t = walk(&*binds, right);
    match (s, t) {
        (FoTerm::Var(x), FoTerm::Var(y)) => if *x == *y {
            Ok(Found::Done)
        } else {
            Ok(bind(alloc, &*binds, *x, t)?)
        },
        (FoTerm::Var(x), FoTerm::Fun(_, _)) => Ok(bind(alloc, &*binds, *x, t)?),
        (FoTerm::Fun(_, _), FoTerm::Var(y)) => Ok(bind(alloc, &*binds, *y, s)?),
        (FoTerm::Fun(f, xs), FoTerm::Fun(g, ys)) => {
            if *f != *g {
                return Ok(Found::Clash);
            }
            if xs.len() != ys.len() {
                return Ok(Found::Clash);
            }
            if is_settled(alloc, &*binds, left, right)? {
                return Ok(Found::Done);
            }
            push_pairs(work, xs.as_slice(), ys.as_slice())?;
            Ok(Found::Done)
        }
    }
}

/// Takes equations apart up to the next binding.
pub fn next<'a>(binds: &[Held<'a>], work: &mut Rows<Equation<'a>>) -> Result<Found<'a>, NoMemory>
    requires { Good (as_binds binds.now) }
    ensures { IfOk result (λ r. Leads (as_binds binds.now) (shown work.old) (shown work.new) r) }
{
    while let Some(e) = work.pop() {
        match reduce(&*binds, work, e.left, e.right)? {
            Found::Done => {}
            Found::Clash => return Ok(Found::Clash),
            Found::Binds(x, t) => return Ok(Found::Binds(x, t)),
        }
    }
    Ok(Found::Done)
}
