ghost use Rattle.std.specs.Prelude.{◌≡◌, ◌==◌, ◌&&◌, map, IfOk, OnOk};
ghost use Rattle.std.specs.List.{list_any, concat};
ghost use Rattle.fo_terms.specs.Same.{is_atom, is_literal};
ghost use Rattle.fo_terms.specs.Substitution.{put, put_atom, put_literals};
ghost use Rattle.fo_terms.specs.Normal.{is_identity, is_refuted, lasting, variables_of, literal_variables, clause_variables, firsts, place_of, numbering, normal_of, complement, is_tautology};
ghost use Rattle.fo_terms.specs.inner.Gathered.{lent, kept, added, all_added};

use crate::{Atom, Clause, FoTerm, Literal};
use std::alloc::Global;
use text_kit::{NoMemory, Rows};

impl Atom {
    /// Whether it is an equation `t = t`. It takes no memory.
    pub fn is_identity(&self) -> bool
        ensures { result ≡ is_identity self.now }
    {
        match self {
            Atom::Holds(_) => false,
            Atom::Eq(s, t) => s.same(t),
        }
    }
}

impl Literal {
    /// Whether it is `~(t = t)`, which never holds. It takes no memory.
    pub fn is_refuted(&self) -> bool
        ensures { result ≡ is_refuted self.now }
    {
        !self.positive && self.atom.is_identity()
    }

    /// Whether it is the other one's negation. It takes no memory.
    pub fn opposes(&self, other: &Literal) -> bool
        ensures { result ≡ is_literal (complement self.now) other.now }
    {
        if self.positive == other.positive {
            return false;
        }
        agree_atoms(&self.atom, &other.atom)
    }
}

/// Whether the literal is among those.
fn holds(literals: &[&Literal], l: &Literal) -> bool
    ensures { result ≡ list_any (λ m. is_literal m l.now) (lent literals.now) }
{
    for m in literals {
        if agree(m, l) {
            return true;
        }
    }
    false
}

fn agree_atoms(a: &Atom, b: &Atom) -> bool
    ensures { result ≡ is_atom a.now b.now }
{
    a.same(b)
}

fn agree(l: &Literal, m: &Literal) -> bool
    ensures { result ≡ is_literal l.now m.now }
{
    l.same(m)
}

/// Appends the literal where it isn't refuted and isn't there yet.
fn keep<'a>(out: &mut Rows<&'a Literal>, l: &'a Literal) -> Result<(), NoMemory>
    ensures { OnOk result (lent out.new ≡ kept (lent out.old) l.now) }
{
    if l.is_refuted() {
        return Ok(());
    }
    if holds(out.as_slice(), l) {
        return Ok(());
    }
    out.push(l)
}

fn lasting_of<'a>(alloc: Global, literals: &'a [Literal]) -> Result<Rows<&'a Literal>, NoMemory>
    ensures { IfOk result (λ out. lent out ≡ lasting literals.now) }
{
    let mut out = Rows::begin(alloc);
    for l in literals {
        keep(&mut out, l)?;
    }
    Ok(out)
}

/// Appends the number where it isn't there yet.
fn note(seen: &mut Rows<u64>, x: u64) -> Result<(), NoMemory>
    ensures { OnOk result (seen.new ≡ added ◌==◌ seen.old x) }
{
    if is_noted(seen.as_slice(), x) {
        return Ok(());
    }
    seen.push(x)
}

fn is_noted(seen: &[u64], x: u64) -> bool
    ensures { result ≡ list_any (λ y. y == x) seen.now }
{
    for y in seen {
        if *y == x {
            return true;
        }
    }
    false
}

/// Notes the variables of a term in reading order.
#[cycle(gathering)]
fn gather(t: &FoTerm, seen: &mut Rows<u64>) -> Result<(), NoMemory>
    ensures { OnOk result (seen.new ≡ all_added ◌==◌ seen.old (variables_of t.now)) }
{
    match t {
        FoTerm::Var(x) => note(seen, *x),
        FoTerm::Fun(_, args) => gather_all(args.as_slice(), seen),
    }
}

#[cycle(gathering)]
fn gather_all(terms: &[FoTerm], seen: &mut Rows<u64>) -> Result<(), NoMemory>
    ensures { OnOk result (seen.new ≡ all_added ◌==◌ seen.old (concat (map variables_of terms.now))) }
{
    for t in terms {
        gather(t, seen)?;
    }
    Ok(())
}

fn gather_literal(l: &Literal, seen: &mut Rows<u64>) -> Result<(), NoMemory>
    ensures { OnOk result (seen.new ≡ all_added ◌==◌ seen.old (literal_variables l.now)) }
{
    match &l.atom {
        Atom::Holds(t) => {
            gather(t, seen)?;
            Ok(())
        }
        Atom::Eq(s, t) => {
            gather(s, seen)?;
            gather(t, seen)?;
            Ok(())
        }
    }
}

/// The variables in the order of their first occurrence.
fn variables(alloc: Global, literals: &[&Literal]) -> Result<Rows<u64>, NoMemory>
    ensures { IfOk result (λ seen. seen ≡ firsts ◌==◌ (clause_variables (lent literals.now))) }
{
    let mut seen = Rows::begin(alloc);
    for l in literals {
        gather_literal(l, &mut seen)?;
    }
    Ok(seen)
}

/// The variables of the literals that the normal form keeps, in the order in which it numbers them.
pub fn lasting_variables(alloc: Global, literals: &[Literal]) -> Result<Rows<u64>, NoMemory>
    ensures { IfOk result (λ seen. seen ≡ firsts ◌==◌ (clause_variables (lasting literals.now))) }
{
    let kept = lasting_of(alloc, literals)?;
    variables(alloc, kept.as_slice())
}

/// The first place of the number, or the list's length.
fn place(seen: &[u64], x: u64) -> u64
    ensures { result ≡ place_of x seen.now }
{
    for i in 0..seen.len() {
        if seen[i] == x {
            return i as u64;
        }
    }
    seen.len() as u64
}

#[cycle(renumbering)]
fn renumber(alloc: Global, seen: &[u64], t: &FoTerm) -> Result<FoTerm, NoMemory>
    ensures { IfOk result (λ s. s ≡ put (numbering seen.now) t.now) }
{
    match t {
        FoTerm::Var(x) => Ok(FoTerm::Var(place(seen, *x))),
        FoTerm::Fun(f, args) => Ok(FoTerm::Fun(*f, renumber_all(alloc, seen, args.as_slice())?)),
    }
}

#[cycle(renumbering)]
fn renumber_all(alloc: Global, seen: &[u64], terms: &[FoTerm]) -> Result<Rows<FoTerm>, NoMemory>
    ensures { IfOk result (λ ts. ts ≡ map (put (numbering seen.now)) terms.now) }
{
    let mut out = Rows::begin(alloc);
    for t in terms {
        out.push(renumber(alloc, &*seen, t)?)?;
    }
    Ok(out)
}

fn renumber_atom(alloc: Global, seen: &[u64], a: &Atom) -> Result<Atom, NoMemory>
    ensures { IfOk result (λ b. b ≡ put_atom (numbering seen.now) a.now) }
{
    match a {
        Atom::Holds(t) => Ok(Atom::Holds(renumber(alloc, seen, t)?)),
        Atom::Eq(s, t) => Ok(Atom::Eq(renumber(alloc, &*seen, s)?, renumber(alloc, &*seen, t)?)),
    }
}

fn renumber_literals(
    alloc: Global,
    seen: &[u64],
    literals: &[&Literal],
) -> Result<Rows<Literal>, NoMemory>
    ensures { IfOk result (λ out. out ≡ put_literals (numbering seen.now) (lent literals.now)) }
{
    let mut out = Rows::begin(alloc);
    for l in literals {
        out.push(Literal {
            positive: l.positive,
            atom: renumber_atom(alloc, &*seen, &l.atom)?,
        })?;
    }
    Ok(out)
}

impl Clause {
    /// The normal form: literals `~(t = t)` go, of equal literals the first stays, and variables are numbered
    /// from 0 in the order of their first occurrence.
    ///
    /// Literals and variables are sought by a walk over those that were found, so the time grows with the
    /// squares of their numbers.
    pub fn normal(self, alloc: Global) -> Result<Clause, NoMemory>
        ensures { IfOk result (λ c. c.literals ≡ normal_of self.literals) }
    {
        let kept = lasting_of(alloc, self.literals.as_slice())?;
        let seen = variables(alloc, kept.as_slice())?;
        Ok(Clause {
            literals: renumber_literals(alloc, seen.as_slice(), kept.as_slice())?,
        })
    }

    /// Whether it holds an equation `t = t`, or a literal and its negation. It takes no memory.
    pub fn is_tautology(&self) -> bool
        ensures { result ≡ is_tautology self.now.literals }
    {
        for l in self.literals.as_slice() {
            if holds_always(l) {
                return true;
            }
            if opposed(l, self.literals.as_slice()) {
                return true;
            }
        }
        false
    }
}

fn holds_always(l: &Literal) -> bool
    ensures { result ≡ (l.now.positive && is_identity l.now.atom) }
{
    l.positive && l.atom.is_identity()
}

fn opposed(l: &Literal, literals: &[Literal]) -> bool
    ensures { result ≡ list_any (is_literal (complement l.now)) literals.now }
{
    for m in literals {
        if l.opposes(m) {
            return true;
        }
    }
    false
}
