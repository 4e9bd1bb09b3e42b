ghost use Rattle.std.specs.Prelude.{◌≡◌, ◌<◌, ◌∷◌, [], List, Some, length, slice_get, slice_set, IfOk, ◌++◌};
ghost use Rattle.std.specs.List.{remove};
ghost use Rattle.fo_terms.specs.declared.term.FoTerm.{FoTerm};
ghost use Rattle.fo_terms.specs.declared.atom.Atom.TheVariants.{Eq};
ghost use Rattle.fo_terms.specs.declared.literal.Literal.{Literal};
ghost use Rattle.fo_terms.specs.declared.clause.Clause.{Clause};
ghost use Rattle.fo_terms.specs.Substitution.{put_literals};
ghost use Rattle.fo_unify.specs.Lookup.{term_of};
ghost use Rattle.fo_infer.specs.Paths.{at_atom_path};
ghost use Rattle.fo_infer.specs.Inferences.{Resolves, Paramodulates, tagged_position, sought, put_in, literal_replaced};
ghost use Rattle.tagged_terms.specs.Readings.{signs_of};
ghost use Rattle.tagged_lines.specs.Variables.{lasting_variables as in_the_end};
ghost use Rattle.kernel_rules.specs.Connectives.{falsum};
ghost use Rattle.hol_kernel.specs.Logs.{IsThm, thm};
ghost use Rattle.hol_kernel.specs.Growth.{Extends, SameFacts};
ghost use Rattle.clause_instances.specs.Theorems.{clause_of};
ghost use Rattle.hol_lift.specs.inner.Typed.{Joins};
ghost use Rattle.hol_lift.specs.Refutations.{IsTaggedClause, AreSignsOver};
ghost use Rattle.hol_lift.specs.inner.Unifying.{SubtermUnifies, IsUnifier};

use crate::pair::{Parent, paramodulate_instances, resolve_instances};
use crate::paths::{atom_subterm, formula_path};
use crate::unifying::{atoms_unifier, unifier};
use clause_instances::{paramodulant_names, resolvent_names};
use fo_infer::{above_literals, renamed, replace_in_atom};
use fo_terms::{Atom, Clause, FoTerm, Literal};
use fo_unify::{Bind, Subst};
use hol_kernel::{Log, ThmId};
use std::alloc::Global;
use tagged_terms::Symbol;
use text_kit::{NoMemory, Rows};

/// From the theorems of two tagged clauses to the one of their resolvent on literals `i` and `j`.
#[tactic(none)]
pub fn lift_resolve(
    log: &mut Log,
    alloc: Global,
    symbols: &[Symbol],
    p: &Clause,
    i: usize,
    left: ThmId,
    q: &Clause,
    j: usize,
    right: ThmId,
) -> Result<ThmId, NoMemory>
    requires symbols { AreSignsOver log.old.env.sig (signs_of symbols.now) }
    requires left_tagged { IsTaggedClause (signs_of symbols.now) p.now.literals }
    requires right_tagged { IsTaggedClause (signs_of symbols.now) q.now.literals }
    requires rule { (c : Clause) × Resolves p.now q.now i j c }
    requires left { IsThm log.old left.0 }
    requires right { IsThm log.old right.0 }
    requires left_false { (thm log.old left.0).concl ≡ falsum }
    requires right_false { (thm log.old right.0).concl ≡ falsum }
    ensures kept { Extends log.old log.new }
    ensures facts { SameFacts log.old log.new }
    ensures gives { IfOk result (λ r. (c : Clause) → Resolves p.now q.now i j c → Joins log.old log.new left.0 (clause_of (signs_of symbols.now) p.now.literals) right.0 (clause_of (signs_of symbols.now) q.now.literals) r.0 (clause_of (signs_of symbols.now) c.literals) × IsTaggedClause (signs_of symbols.now) c.literals) }
{
    let by = above_literals(p.literals.as_slice())?;
    let apart = renamed(alloc, p, q)?;
    let unifier = atoms_unifier(alloc, &p.literals.at(i).atom, &apart.at(j).atom)?;
    let seen = resolvent_names(
        alloc,
        unifier.binds.as_slice(),
        p.literals.as_slice(),
        i,
        apart.as_slice(),
        j,
    )?;
    let binds = unifier.binds.as_slice();
    let one = Parent {
        by: 0,
        binds,
        seen: seen.as_slice(),
        literals: p.literals.as_slice(),
        thm: left,
    };
    let other = Parent {
        by,
        binds,
        seen: seen.as_slice(),
        literals: q.literals.as_slice(),
        thm: right,
    };
    resolve_instances(log, alloc, symbols, &one, i, &other, j)
}

/// The side of an equation that is sought; the term of another atom.
fn sought_side(e: &Atom, swapped: bool) -> &FoTerm
    ensures { (a b : FoTerm) → e.now ≡ Eq a b → result.now ≡ sought swapped a b }
{
    match e {
        Atom::Holds(t) => t,
        Atom::Eq(a, b) => if swapped { b } else { a },
    }
}

/// The side of an equation that is put in; the term of another atom.
fn put_in_side(e: &Atom, swapped: bool) -> &FoTerm
    ensures { (a b : FoTerm) → e.now ≡ Eq a b → result.now ≡ put_in swapped a b }
{
    match e {
        Atom::Holds(t) => t,
        Atom::Eq(a, b) => if swapped { a } else { b },
    }
}

/// A most general unifier of a term and the subterm of an atom at a path, which have one.
fn subterm_unifier(alloc: Global, s: &FoTerm, a: &Atom, path: &[u64]) -> Result<Subst, NoMemory>
    requires { SubtermUnifies s.now a.now path.now }
    ensures { IfOk result (λ v. (u : FoTerm) → at_atom_path path.now a.now ≡ Some u → IsUnifier ((s.now, u) ∷ []) v.binds) }
{
    match atom_subterm(a, path) {
        None => unreachable!(),
        Some(u) => unifier(alloc, s, u),
    }
}

/// The literal with another term at a path of its atom.
fn replaced_literal(
    alloc: Global,
    l: &Literal,
    path: &[u64],
    by: &FoTerm,
) -> Result<Literal, NoMemory>
    ensures { IfOk result (λ m. m ≡ literal_replaced path.now by.now l.now) }
{
    Ok(Literal {
        positive: l.positive,
        atom: replace_in_atom(alloc, &l.atom, path, by)?,
    })
}

/// The variables of a paramodulant, in the order of its normal form.
fn names(
    alloc: Global,
    binds: &[Bind],
    p: &Clause,
    i: usize,
    put_in: &FoTerm,
    apart: &Rows<Literal>,
    j: usize,
    path: &[u64],
) -> Result<Rows<u64>, NoMemory>
    requires left { i < length p.now.literals }
    requires right { j < length apart.now }
    ensures { IfOk result (λ seen. (l : Literal) → slice_get apart.now j ≡ Some l → seen ≡ in_the_end (put_literals (term_of binds.now) (remove p.now.literals i ++ slice_set apart.now j (literal_replaced path.now put_in.now l)))) }
{
    let into = replaced_literal(alloc, apart.at(j), path, put_in)?;
    paramodulant_names(
        alloc,
        binds,
        p.literals.as_slice(),
        i,
        apart.as_slice(),
        j,
        into,
    )
}

/// From the theorems of two tagged clauses to the one of their paramodulant, which has the other side of the equation `i`
/// of the one at the path of literal `j` of the other.
#[tactic(none)]
pub fn lift_paramodulate(
    log: &mut Log,
    alloc: Global,
    symbols: &[Symbol],
    p: &Clause,
    i: usize,
    swapped: bool,
    left: ThmId,
    q: &Clause,
    j: usize,
    path: &[u64],
    right: ThmId,
) -> Result<ThmId, NoMemory>
    requires symbols { AreSignsOver log.old.env.sig (signs_of symbols.now) }
    requires left_tagged { IsTaggedClause (signs_of symbols.now) p.now.literals }
    requires right_tagged { IsTaggedClause (signs_of symbols.now) q.now.literals }
    requires rule { (c : Clause) × Paramodulates tagged_position p.now q.now i swapped j path.now c }
    requires left { IsThm log.old left.0 }
    requires right { IsThm log.old right.0 }
    requires left_false { (thm log.old left.0).concl ≡ falsum }
    requires right_false { (thm log.old right.0).concl ≡ falsum }
    ensures kept { Extends log.old log.new }
    ensures facts { SameFacts log.old log.new }
    ensures gives { IfOk result (λ r. (c : Clause) → Paramodulates tagged_position p.now q.now i swapped j path.now c → Joins log.old log.new left.0 (clause_of (signs_of symbols.now) p.now.literals) right.0 (clause_of (signs_of symbols.now) q.now.literals) r.0 (clause_of (signs_of symbols.now) c.literals) × IsTaggedClause (signs_of symbols.now) c.literals) }
{
    let by = above_literals(p.literals.as_slice())?;
    let apart = renamed(alloc, p, q)?;
    let e = &p.literals.at(i).atom;
    let into = &apart.at(j).atom;
    let unifier = subterm_unifier(alloc, sought_side(e, swapped), into, path)?;
    let binds = unifier.binds.as_slice();
    let seen = names(alloc, binds, p, i, put_in_side(e, swapped), &apart, j, path)?;
    let places = formula_path(alloc, into, path)?;
    let one = Parent {
        by: 0,
        binds,
        seen: seen.as_slice(),
        literals: p.literals.as_slice(),
        thm: left,
    };
    let other = Parent {
        by,
        binds,
        seen: seen.as_slice(),
        literals: q.literals.as_slice(),
        thm: right,
    };
    paramodulate_instances(log, alloc, symbols, &one, i, swapped, &other, j, &places)
}
