ghost use Rattle.std.specs.Prelude.{◌≡◌, ◌++◌, List, length, IfOk};
ghost use Rattle.std.specs.List.{remove};
ghost use Rattle.fo_terms.specs.Substitution.{put_literals};
ghost use Rattle.tagged_terms.specs.Readings.{signs_of};
ghost use Rattle.kernel_rules.specs.Connectives.{falsum};
ghost use Rattle.hol_kernel.specs.Logs.{IsThm, thm};
ghost use Rattle.hol_kernel.specs.Growth.{Extends, SameFacts};
ghost use Rattle.clause_instances.specs.Images.{image};
ghost use Rattle.clause_instances.specs.Theorems.{clause_of, HasInstance, Lands};
ghost use Rattle.hol_lift.specs.inner.Typed.{Opposed, Rewrites};
ghost use Rattle.hol_lift.specs.Refutations.{AreSignsOver};
ghost use Rattle.hol_lift.specs.inner.Pairs.{Resolved, Paramodulated};

use crate::reading::typed_instance;
use crate::typed::{paramodulate_typed, resolve_typed};
use clause_instances::{Image, instance};
use fo_terms::Literal;
use fo_unify::Bind;
use hol_clauses::TypedLiteral;
use hol_kernel::{Log, ThmId};
use std::alloc::Global;
use tagged_terms::Symbol;
use text_kit::{NoMemory, Rows};

/// A parent of a line: its literals, its theorem, and what is put for its variables.
#[derive(Clone, Copy, Drop)]
pub struct Parent<'a> {
    /// by how much its variables are raised to be apart from the other parent's
    pub by: u64,
    /// the unifier
    pub binds: &'a [Bind],
    /// the variables of the conclusion in the order in which its normal form numbers them
    pub seen: &'a [u64],
    /// its literals
    pub literals: &'a [Literal],
    /// its theorem
    pub thm: ThmId,
}

/// The theorems of both parents' instances.
#[tactic(none)]
fn both_instances(
    log: &mut Log,
    alloc: Global,
    symbols: &[Symbol],
    left: &Parent,
    right: &Parent,
) -> Result<(ThmId, ThmId), NoMemory>
    requires symbols { AreSignsOver log.old.env.sig (signs_of symbols.now) }
    requires left_fits { HasInstance log.old.env.sig (signs_of symbols.now) (image left.now.by left.now.binds.now left.now.seen.now) left.now.literals.now }
    requires right_fits { HasInstance log.old.env.sig (signs_of symbols.now) (image right.now.by right.now.binds.now right.now.seen.now) right.now.literals.now }
    requires left { IsThm log.old left.now.thm.0 }
    requires right { IsThm log.old right.now.thm.0 }
    requires left_false { (thm log.old left.now.thm.0).concl ≡ falsum }
    requires right_false { (thm log.old right.now.thm.0).concl ≡ falsum }
    ensures kept { Extends log.old log.new }
    ensures facts { SameFacts log.old log.new }
    ensures left { IfOk result (λ rs. Lands log.old log.new left.now.thm.0 (clause_of (signs_of symbols.now) left.now.literals.now) rs.0.0 (clause_of (signs_of symbols.now) (put_literals (image left.now.by left.now.binds.now left.now.seen.now) left.now.literals.now))) }
    ensures right { IfOk result (λ rs. Lands log.old log.new right.now.thm.0 (clause_of (signs_of symbols.now) right.now.literals.now) rs.1.0 (clause_of (signs_of symbols.now) (put_literals (image right.now.by right.now.binds.now right.now.seen.now) right.now.literals.now))) }
{
    let u = Image {
        by: left.by,
        binds: left.binds,
        seen: left.seen,
    };
    let w = Image {
        by: right.by,
        binds: right.binds,
        seen: right.seen,
    };
    let one = instance(log, alloc, symbols, &u, left.literals, left.thm)?;
    let other = instance(log, alloc, symbols, &w, right.literals, right.thm)?;
    Ok((one, other))
}

/// What a parent's instance stands for.
fn typed_parent(
    alloc: Global,
    symbols: &[Symbol],
    parent: &Parent,
) -> Result<Rows<TypedLiteral>, NoMemory>
    ensures { IfOk result (λ ls. ls ≡ clause_of (signs_of symbols.now) (put_literals (image parent.now.by parent.now.binds.now parent.now.seen.now) parent.now.literals.now)) }
{
    let u = Image {
        by: parent.by,
        binds: parent.binds,
        seen: parent.seen,
    };
    typed_instance(alloc, symbols, &u, parent.literals)
}

/// The theorem of what resolution leaves of the parents' instances.
#[tactic(none)]
pub fn resolve_instances(
    log: &mut Log,
    alloc: Global,
    symbols: &[Symbol],
    left: &Parent,
    i: usize,
    right: &Parent,
    j: usize,
) -> Result<ThmId, NoMemory>
    requires symbols { AreSignsOver log.old.env.sig (signs_of symbols.now) }
    requires left_fits { HasInstance log.old.env.sig (signs_of symbols.now) (image left.now.by left.now.binds.now left.now.seen.now) left.now.literals.now }
    requires right_fits { HasInstance log.old.env.sig (signs_of symbols.now) (image right.now.by right.now.binds.now right.now.seen.now) right.now.literals.now }
    requires left { IsThm log.old left.now.thm.0 }
    requires right { IsThm log.old right.now.thm.0 }
    requires left_false { (thm log.old left.now.thm.0).concl ≡ falsum }
    requires right_false { (thm log.old right.now.thm.0).concl ≡ falsum }
    requires opposed { Opposed (clause_of (signs_of symbols.now) (put_literals (image left.now.by left.now.binds.now left.now.seen.now) left.now.literals.now)) i (clause_of (signs_of symbols.now) (put_literals (image right.now.by right.now.binds.now right.now.seen.now) right.now.literals.now)) j }
    ensures kept { Extends log.old log.new }
    ensures facts { SameFacts log.old log.new }
    ensures gives { IfOk result (λ r. Resolved log.old log.new (signs_of symbols.now) left.now.thm.0 (image left.now.by left.now.binds.now left.now.seen.now) left.now.literals.now i right.now.thm.0 (image right.now.by right.now.binds.now right.now.seen.now) right.now.literals.now j r.0) }
{
    let (one, other) = both_instances(log, alloc, symbols, left, right)?;
    let p = typed_parent(alloc, symbols, left)?;
    let q = typed_parent(alloc, symbols, right)?;
    resolve_typed(log, &p, i, one, &q, j, other)
}

/// The theorem of what paramodulation makes of the parents' instances.
#[tactic(none)]
pub fn paramodulate_instances(
    log: &mut Log,
    alloc: Global,
    symbols: &[Symbol],
    left: &Parent,
    i: usize,
    swapped: bool,
    right: &Parent,
    j: usize,
    path: &Rows<u8>,
) -> Result<ThmId, NoMemory>
    requires symbols { AreSignsOver log.old.env.sig (signs_of symbols.now) }
    requires left_fits { HasInstance log.old.env.sig (signs_of symbols.now) (image left.now.by left.now.binds.now left.now.seen.now) left.now.literals.now }
    requires right_fits { HasInstance log.old.env.sig (signs_of symbols.now) (image right.now.by right.now.binds.now right.now.seen.now) right.now.literals.now }
    requires left { IsThm log.old left.now.thm.0 }
    requires right { IsThm log.old right.now.thm.0 }
    requires left_false { (thm log.old left.now.thm.0).concl ≡ falsum }
    requires right_false { (thm log.old right.now.thm.0).concl ≡ falsum }
    requires rewrites { Rewrites (clause_of (signs_of symbols.now) (put_literals (image left.now.by left.now.binds.now left.now.seen.now) left.now.literals.now)) i swapped (clause_of (signs_of symbols.now) (put_literals (image right.now.by right.now.binds.now right.now.seen.now) right.now.literals.now)) j path.now }
    ensures kept { Extends log.old log.new }
    ensures facts { SameFacts log.old log.new }
    ensures gives { IfOk result (λ r. Paramodulated log.old log.new (signs_of symbols.now) left.now.thm.0 (image left.now.by left.now.binds.now left.now.seen.now) left.now.literals.now i swapped right.now.thm.0 (image right.now.by right.now.binds.now right.now.seen.now) right.now.literals.now j path.now r.0) }
{
    let (one, other) = both_instances(log, alloc, symbols, left, right)?;
    let p = typed_parent(alloc, symbols, left)?;
    let q = typed_parent(alloc, symbols, right)?;
    paramodulate_typed(log, alloc, &p, i, swapped, one, &q, j, path, other)
}
