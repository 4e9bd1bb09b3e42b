ghost use Rattle.tagged_lines.specs.Lifted.{InputsLift, FactoringLifts, ReflexivityLifts, ResolutionLifts, ParamodulationLifts};
ghost use Rattle.tagged_lines.specs.Agreement.{InstancesAgree};
ghost use Rattle.tagged_lines.specs.Formulas.{ClausesAreFormulas, OwnTypesServe};
ghost use Rattle.tagged_lines.specs.Tags.{OwnVariablesAreTagged};

use fo_terms::Clause;

/// The normal form of a tagged clause is a tagged clause, and stands for an instance of what it stands for, but for
/// repeats and refuted literals. It does nothing: its contract is the law.
pub fn inputs_lift(p: &Clause)
    ensures { InputsLift p.now.literals }
{}

/// Factoring of a tagged clause is factoring of an instance of what it stands for. It does nothing: its contract is the
/// law.
pub fn factoring_lifts(p: &Clause, i: u64, j: u64, c: &Clause)
    ensures { FactoringLifts p.now i j c.now }
{}

/// Reflexivity on a tagged clause is reflexivity on an instance of what it stands for. It does nothing: its contract is
/// the law.
pub fn reflexivity_lifts(p: &Clause, i: u64, c: &Clause)
    ensures { ReflexivityLifts p.now i c.now }
{}

/// Resolution of tagged clauses is resolution of instances of what they stand for. It does nothing: its contract is the
/// law.
pub fn resolution_lifts(p: &Clause, q: &Clause, i: u64, j: u64, c: &Clause)
    ensures { ResolutionLifts p.now q.now i j c.now }
{}

/// Paramodulation of tagged clauses puts one side of an equation for the other at a path of a formula that crosses no
/// binder, in instances of what they stand for. It does nothing: its contract is the law.
pub fn paramodulation_lifts(
    p: &Clause,
    q: &Clause,
    i: u64,
    swapped: bool,
    j: u64,
    path: &[u64],
    c: &Clause,
)
    ensures { ParamodulationLifts p.now q.now i swapped j path.now c.now }
{}

/// What a tagged clause stands for are formulas. It does nothing: its contract is the law.
pub fn clauses_are_formulas(p: &Clause)
    ensures { ClausesAreFormulas p.now.literals }
{}

/// The types of a clause's own variables serve it, and are the signature's. It does nothing: its contract is the law.
pub fn own_types_serve(p: &Clause)
    ensures { OwnTypesServe p.now.literals }
{}

/// Replacements that agree on the typed variables of a tagged clause give one instance of what it stands for. It does
/// nothing: its contract is the law.
pub fn instances_agree(p: &Clause)
    ensures { InstancesAgree p.now.literals }
{}

/// The own variables of a tagged clause stand below tags of their types. It does nothing: its contract is the law.
pub fn own_variables_are_tagged(p: &Clause)
    ensures { OwnVariablesAreTagged p.now.literals }
{}
