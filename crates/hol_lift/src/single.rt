ghost use Rattle.std.specs.Prelude.{◌≡◌, ◌<◌, List, length, IfOk};
ghost use Rattle.tagged_lines.specs.Variables.{finished};
ghost use Rattle.tagged_lines.specs.Lifted.{factored};
ghost use Rattle.fo_terms.specs.declared.clause.Clause.{Clause};
ghost use Rattle.fo_terms.specs.Normal.{normal_of};
ghost use Rattle.fo_terms.specs.Substitution.{put_literals};
ghost use Rattle.fo_infer.specs.Inferences.{Factors, Reflects};
ghost use Rattle.tagged_terms.specs.Readings.{signs_of};
ghost use Rattle.kernel_rules.specs.Connectives.{falsum};
ghost use Rattle.hol_kernel.specs.Logs.{IsThm, thm};
ghost use Rattle.hol_kernel.specs.Growth.{Extends, SameFacts};
ghost use Rattle.hol_terms.specs.declared.literal.TypedLiteral.{TypedLiteral};
ghost use Rattle.clause_instances.specs.Images.{image};
ghost use Rattle.clause_instances.specs.Theorems.{clause_of, HasInstance, Lands};
ghost use Rattle.hol_lift.specs.inner.Typed.{Last};
ghost use Rattle.hol_lift.specs.Refutations.{IsTaggedClause, AreSignsOver};

use crate::dropping::drop_refuted;
use crate::reading::typed_instance;
use crate::unifying::{atoms_unifier, equation_unifier};
use clause_instances::{Image, instance, rest_names};
use fo_terms::{Clause, Literal, lasting_variables};
use fo_unify::{Bind, Subst};
use hol_kernel::{Log, ThmId};
use std::alloc::Global;
use tagged_terms::Symbol;
use text_kit::{NoMemory, Rows};

/// The theorem of what lasts of an instance of a tagged clause: repeats go by themselves, and literals that never hold are
/// cut.
#[tactic(none)]
fn lift_instance(
    log: &mut Log,
    alloc: Global,
    symbols: &[Symbol],
    u: &Image,
    p: &[Literal],
    th: ThmId,
) -> Result<ThmId, NoMemory>
    requires symbols { AreSignsOver log.old.env.sig (signs_of symbols.now) }
    requires fits { HasInstance log.old.env.sig (signs_of symbols.now) (image u.now.by u.now.binds.now u.now.seen.now) p.now }
    requires th { IsThm log.old th.0 }
    requires false_is { (thm log.old th.0).concl ≡ falsum }
    ensures kept { Extends log.old log.new }
    ensures facts { SameFacts log.old log.new }
    ensures gives { IfOk result (λ r. (c : List TypedLiteral) → Last (clause_of (signs_of symbols.now) (put_literals (image u.now.by u.now.binds.now u.now.seen.now) p.now)) c → Lands log.old log.new th.0 (clause_of (signs_of symbols.now) p.now) r.0 c) }
{
    let instanced = instance(log, alloc, symbols, u, p, th)?;
    let literals = typed_instance(alloc, symbols, u, p)?;
    drop_refuted(log, literals.as_slice(), instanced)
}

/// From the theorem of a tagged clause to the one of its normal form, which is tagged too.
#[tactic(none)]
pub fn lift_input(
    log: &mut Log,
    alloc: Global,
    symbols: &[Symbol],
    p: &Clause,
    th: ThmId,
) -> Result<ThmId, NoMemory>
    requires symbols { AreSignsOver log.old.env.sig (signs_of symbols.now) }
    requires tagged { IsTaggedClause (signs_of symbols.now) p.now.literals }
    requires th { IsThm log.old th.0 }
    requires false_is { (thm log.old th.0).concl ≡ falsum }
    ensures kept { Extends log.old log.new }
    ensures facts { SameFacts log.old log.new }
    ensures gives { IfOk result (λ r. Lands log.old log.new th.0 (clause_of (signs_of symbols.now) p.now.literals) r.0 (clause_of (signs_of symbols.now) (normal_of p.now.literals)) × IsTaggedClause (signs_of symbols.now) (normal_of p.now.literals)) }
{
    let binds: Rows<Bind> = Rows::begin(alloc);
    let seen = lasting_variables(alloc, p.literals.as_slice())?;
    let u = Image {
        by: 0,
        binds: binds.as_slice(),
        seen: seen.as_slice(),
    };
    lift_instance(log, alloc, symbols, &u, p.literals.as_slice(), th)
}

/// From the theorem of a tagged clause to the one of what is left of it without literal `j`, under a unifier.
#[tactic(none)]
fn lift_rest(
    log: &mut Log,
    alloc: Global,
    symbols: &[Symbol],
    p: &Clause,
    j: usize,
    unifier: &Subst,
    th: ThmId,
) -> Result<ThmId, NoMemory>
    requires symbols { AreSignsOver log.old.env.sig (signs_of symbols.now) }
    requires within { j < length p.now.literals }
    requires fits { HasInstance log.old.env.sig (signs_of symbols.now) (finished unifier.now.binds (factored p.now unifier.now.binds j)) p.now.literals }
    requires th { IsThm log.old th.0 }
    requires false_is { (thm log.old th.0).concl ≡ falsum }
    ensures kept { Extends log.old log.new }
    ensures facts { SameFacts log.old log.new }
    ensures gives { IfOk result (λ r. (c : List TypedLiteral) → Last (clause_of (signs_of symbols.now) (put_literals (finished unifier.now.binds (factored p.now unifier.now.binds j)) p.now.literals)) c → Lands log.old log.new th.0 (clause_of (signs_of symbols.now) p.now.literals) r.0 c) }
{
    let seen = rest_names(alloc, unifier.binds.as_slice(), p.literals.as_slice(), j)?;
    let u = Image {
        by: 0,
        binds: unifier.binds.as_slice(),
        seen: seen.as_slice(),
    };
    lift_instance(log, alloc, symbols, &u, p.literals.as_slice(), th)
}

/// From the theorem of a tagged clause to the one of what factoring its literals `i` and `j` gives.
#[tactic(none)]
pub fn lift_factor(
    log: &mut Log,
    alloc: Global,
    symbols: &[Symbol],
    p: &Clause,
    i: usize,
    j: usize,
    th: ThmId,
) -> Result<ThmId, NoMemory>
    requires symbols { AreSignsOver log.old.env.sig (signs_of symbols.now) }
    requires tagged { IsTaggedClause (signs_of symbols.now) p.now.literals }
    requires rule { (c : Clause) × Factors p.now i j c }
    requires th { IsThm log.old th.0 }
    requires false_is { (thm log.old th.0).concl ≡ falsum }
    ensures kept { Extends log.old log.new }
    ensures facts { SameFacts log.old log.new }
    ensures gives { IfOk result (λ r. (c : Clause) → Factors p.now i j c → Lands log.old log.new th.0 (clause_of (signs_of symbols.now) p.now.literals) r.0 (clause_of (signs_of symbols.now) c.literals) × IsTaggedClause (signs_of symbols.now) c.literals) }
{
    let unifier = atoms_unifier(alloc, &p.literals.at(i).atom, &p.literals.at(j).atom)?;
    lift_rest(log, alloc, symbols, p, j, &unifier, th)
}

/// From the theorem of a tagged clause to the one of what reflexivity gives for its literal `i`.
#[tactic(none)]
pub fn lift_reflex(
    log: &mut Log,
    alloc: Global,
    symbols: &[Symbol],
    p: &Clause,
    i: usize,
    th: ThmId,
) -> Result<ThmId, NoMemory>
    requires symbols { AreSignsOver log.old.env.sig (signs_of symbols.now) }
    requires tagged { IsTaggedClause (signs_of symbols.now) p.now.literals }
    requires rule { (c : Clause) × Reflects p.now i c }
    requires th { IsThm log.old th.0 }
    requires false_is { (thm log.old th.0).concl ≡ falsum }
    ensures kept { Extends log.old log.new }
    ensures facts { SameFacts log.old log.new }
    ensures gives { IfOk result (λ r. (c : Clause) → Reflects p.now i c → Lands log.old log.new th.0 (clause_of (signs_of symbols.now) p.now.literals) r.0 (clause_of (signs_of symbols.now) c.literals) × IsTaggedClause (signs_of symbols.now) c.literals) }
{
    let unifier = equation_unifier(alloc, &p.literals.at(i).atom)?;
    lift_rest(log, alloc, symbols, p, i, &unifier, th)
}
