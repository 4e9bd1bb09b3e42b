ghost use Rattle.std.specs.Prelude.{◌≡◌, [], ◌∷◌, MatchResult};
ghost use Rattle.proof_syntax.specs.Names as names;
ghost use Rattle.proof_reader.specs.inner.Rules.{rule_of, term_rule, theorem_rule, pair_rule, mixed_rule, variable_rule};
ghost use Rattle.proof_reader.specs.inner.Parts.{GotMade, FailsArgs};

use crate::args::{
    fact, term, term_and_theorem, term_and_theorems, terms_and_theorem, theorem, three_theorems,
    two_theorems, variable_and_theorem, variable_term_and_theorem,
};
use crate::rule::{MixedRule, PairRule, Rule, TermRule, TheoremRule, VariableRule};
use kernel_rules::Step;
use proof_syntax::PartFault;
use proof_terms::Lookup;
use std::alloc::Global;

fn by_fact<'a>(names: &Lookup, text: &'a [u8]) -> Result<(Step, &'a [u8]), PartFault>
    ensures { MatchResult result (λ r. GotMade names.now (rule_of Rule.Fact) text.now r.0 r.1.now) (λ e. FailsArgs names.now (rule_of Rule.Fact).kinds text.now e) }
{
    match fact(names, text) {
        Err(e) => Err(e),
        Ok((number, rest)) => Ok((Step::Fact(number), rest)),
    }
}

fn by_or_elim(text: &[u8]) -> Result<(Step, &[u8]), PartFault>
    ensures { (ns : names.Names) → MatchResult result (λ r. GotMade ns (rule_of Rule.OrElim) text.now r.0 r.1.now) (λ e. FailsArgs ns (rule_of Rule.OrElim).kinds text.now e) }
{
    match three_theorems(text) {
        Err(e) => Err(e),
        Ok((a, b, c, rest)) => Ok((Step::OrElim(a, b, c), rest)),
    }
}

fn by_subst<'a>(
    alloc: Global,
    names: &Lookup,
    text: &'a [u8],
) -> Result<(Step, &'a [u8]), PartFault>
    ensures { MatchResult result (λ r. GotMade names.now (rule_of Rule.Subst) text.now r.0 r.1.now) (λ e. FailsArgs names.now (rule_of Rule.Subst).kinds text.now e) }
{
    match term_and_theorems(alloc, names, text) {
        Err(e) => Err(e),
        Ok((t, a, b, rest)) => Ok((Step::Subst(t, a, b), rest)),
    }
}

fn by_ex_intro<'a>(
    alloc: Global,
    names: &Lookup,
    text: &'a [u8],
) -> Result<(Step, &'a [u8]), PartFault>
    ensures { MatchResult result (λ r. GotMade names.now (rule_of Rule.ExIntro) text.now r.0 r.1.now) (λ e. FailsArgs names.now (rule_of Rule.ExIntro).kinds text.now e) }
{
    match terms_and_theorem(alloc, names, text) {
        Err(e) => Err(e),
        Ok((s, t, a, rest)) => Ok((Step::ExIntro(s, t, a), rest)),
    }
}

fn by_inst<'a>(alloc: Global, names: &Lookup, text: &'a [u8]) -> Result<(Step, &'a [u8]), PartFault>
    ensures { MatchResult result (λ r. GotMade names.now (rule_of Rule.Inst) text.now r.0 r.1.now) (λ e. FailsArgs names.now (rule_of Rule.Inst).kinds text.now e) }
{
    match variable_term_and_theorem(alloc, names, text) {
        Err(e) => Err(e),
        Ok((variable, ty, t, a, rest)) => Ok((Step::Inst(variable, ty, t, a), rest)),
    }
}

fn by_term<'a>(
    alloc: Global,
    names: &Lookup,
    rule: TermRule,
    text: &'a [u8],
) -> Result<(Step, &'a [u8]), PartFault>
    ensures { MatchResult result (λ r. GotMade names.now (term_rule rule) text.now r.0 r.1.now) (λ e. FailsArgs names.now (term_rule rule).kinds text.now e) }
{
    match term(alloc, names, text) {
        Err(e) => Err(e),
        Ok((t, rest)) => Ok((rule.step(t), rest)),
    }
}

fn by_theorem(rule: TheoremRule, text: &[u8]) -> Result<(Step, &[u8]), PartFault>
    ensures { (ns : names.Names) → MatchResult result (λ r. GotMade ns (theorem_rule rule) text.now r.0 r.1.now) (λ e. FailsArgs ns (theorem_rule rule).kinds text.now e) }
{
    match theorem(text) {
        Err(e) => Err(e),
        Ok((a, rest)) => Ok((rule.step(a), rest)),
    }
}

fn by_pair(rule: PairRule, text: &[u8]) -> Result<(Step, &[u8]), PartFault>
    ensures { (ns : names.Names) → MatchResult result (λ r. GotMade ns (pair_rule rule) text.now r.0 r.1.now) (λ e. FailsArgs ns (pair_rule rule).kinds text.now e) }
{
    match two_theorems(text) {
        Err(e) => Err(e),
        Ok((a, b, rest)) => Ok((rule.step(a, b), rest)),
    }
}

fn by_mixed<'a>(
    alloc: Global,
    names: &Lookup,
    rule: MixedRule,
    text: &'a [u8],
) -> Result<(Step, &'a [u8]), PartFault>
    ensures { MatchResult result (λ r. GotMade names.now (mixed_rule rule) text.now r.0 r.1.now) (λ e. FailsArgs names.now (mixed_rule rule).kinds text.now e) }
{
    match term_and_theorem(alloc, names, text) {
        Err(e) => Err(e),
        Ok((t, a, rest)) => Ok((rule.step(t, a), rest)),
    }
}

fn by_variable<'a>(
    alloc: Global,
    names: &Lookup,
    rule: VariableRule,
    text: &'a [u8],
) -> Result<(Step, &'a [u8]), PartFault>
    ensures { MatchResult result (λ r. GotMade names.now (variable_rule rule) text.now r.0 r.1.now) (λ e. FailsArgs names.now (variable_rule rule).kinds text.now e) }
{
    match variable_and_theorem(alloc, names, text) {
        Err(e) => Err(e),
        Ok((variable, ty, a, rest)) => Ok((rule.step(variable, ty, a), rest)),
    }
}

/// The step that a rule makes of the arguments behind its word, and what stands behind them.
pub fn made<'a>(
    alloc: Global,
    names: &Lookup,
    rule: Rule,
    text: &'a [u8],
) -> Result<(Step, &'a [u8]), PartFault>
    ensures { MatchResult result (λ r. GotMade names.now (rule_of rule) text.now r.0 r.1.now) (λ e. FailsArgs names.now (rule_of rule).kinds text.now e) }
{
    match rule {
        Rule::Fact => by_fact(names, text),
        Rule::TrueIntro => Ok((Step::TrueIntro, text)),
        Rule::OrElim => by_or_elim(text),
        Rule::Subst => by_subst(alloc, names, text),
        Rule::ExIntro => by_ex_intro(alloc, names, text),
        Rule::Inst => by_inst(alloc, names, text),
        Rule::OfTerm(rule) => by_term(alloc, names, rule, text),
        Rule::OfTheorem(rule) => by_theorem(rule, text),
        Rule::OfPair(rule) => by_pair(rule, text),
        Rule::Mixed(rule) => by_mixed(alloc, names, rule, text),
        Rule::OfVariable(rule) => by_variable(alloc, names, rule, text),
    }
}
