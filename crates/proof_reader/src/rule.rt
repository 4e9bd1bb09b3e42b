ghost use Rattle.std.specs.Prelude.{[], ◌∷◌};
ghost use Rattle.proof_syntax.specs.Forms.{FactArg, NumberArg, TypeArg, TermArg};
ghost use Rattle.proof_reader.specs.inner.Rules.{IsNamed, IsNamedSingle, IsMade, term_rule, theorem_rule, pair_rule, mixed_rule, variable_rule, rule_of};

use hol_terms::{Term, Ty};
use kernel_rules::{Step, ThmId};

/// The words of the rules.
pub const WORDS: [&[u8]; 24] = [
    b"fact",
    b"assume",
    b"impintro",
    b"impelim",
    b"andintro",
    b"andleft",
    b"andright",
    b"orleft",
    b"orright",
    b"orelim",
    b"notintro",
    b"notelim",
    b"trueintro",
    b"classical",
    b"allintro",
    b"allelim",
    b"exintro",
    b"choose",
    b"refl",
    b"subst",
    b"beta",
    b"abs",
    b"iff",
    b"inst",
];

/// A rule that is given a term.
#[derive(Clone, Copy, Debug, Drop, PartialEq, Eq)]
pub enum TermRule {
    Assume,
    Refl,
    Beta,
}

/// A rule that is given a theorem.
#[derive(Clone, Copy, Debug, Drop, PartialEq, Eq)]
pub enum TheoremRule {
    AndLeft,
    AndRight,
    Choose,
}

/// A rule that is given two theorems.
#[derive(Clone, Copy, Debug, Drop, PartialEq, Eq)]
pub enum PairRule {
    ImpElim,
    AndIntro,
    NotElim,
    Iff,
}

/// A rule that is given a term and a theorem.
#[derive(Clone, Copy, Debug, Drop, PartialEq, Eq)]
pub enum MixedRule {
    ImpIntro,
    OrLeft,
    OrRight,
    NotIntro,
    Classical,
    AllElim,
}

/// A rule that is given a variable and a theorem.
#[derive(Clone, Copy, Debug, Drop, PartialEq, Eq)]
pub enum VariableRule {
    AllIntro,
    Abs,
}

/// The rule of a step.
#[derive(Clone, Copy, Debug, Drop, PartialEq, Eq)]
pub enum Rule {
    Fact,
    TrueIntro,
    OrElim,
    Subst,
    ExIntro,
    Inst,
    OfTerm(TermRule),
    OfTheorem(TheoremRule),
    OfPair(PairRule),
    Mixed(MixedRule),
    OfVariable(VariableRule),
}

impl TermRule {
    fn named(word: &[u8]) -> Option<TermRule>
        ensures { IsNamed term_rule word.now result }
    {
        if word == b"assume".as_slice() {
            Some(TermRule::Assume)
        } else if word == b"refl".as_slice() {
            Some(TermRule::Refl)
        } else if word == b"beta".as_slice() {
            Some(TermRule::Beta)
        } else {
            None
        }
    }

    /// The step by this rule with a term.
    pub fn step(self, term: Term) -> Step
        ensures { IsMade (term_rule self) (TermArg term ∷ []) result }
    {
        match self {
            TermRule::Assume => Step::Assume(term),
            TermRule::Refl => Step::Refl(term),
            TermRule::Beta => Step::Beta(term),
        }
    }
}

impl TheoremRule {
    fn named(word: &[u8]) -> Option<TheoremRule>
        ensures { IsNamed theorem_rule word.now result }
    {
        if word == b"andleft".as_slice() {
            Some(TheoremRule::AndLeft)
        } else if word == b"andright".as_slice() {
            Some(TheoremRule::AndRight)
        } else if word == b"choose".as_slice() {
            Some(TheoremRule::Choose)
        } else {
            None
        }
    }

    /// The step by this rule from a theorem.
    pub fn step(self, a: ThmId) -> Step
        ensures { IsMade (theorem_rule self) (NumberArg a.0 ∷ []) result }
    {
        match self {
            TheoremRule::AndLeft => Step::AndLeft(a),
            TheoremRule::AndRight => Step::AndRight(a),
            TheoremRule::Choose => Step::Choose(a),
        }
    }
}

impl PairRule {
    fn named(word: &[u8]) -> Option<PairRule>
        ensures { IsNamed pair_rule word.now result }
    {
        if word == b"impelim".as_slice() {
            Some(PairRule::ImpElim)
        } else if word == b"andintro".as_slice() {
            Some(PairRule::AndIntro)
        } else if word == b"notelim".as_slice() {
            Some(PairRule::NotElim)
        } else if word == b"iff".as_slice() {
            Some(PairRule::Iff)
        } else {
            None
        }
    }

    /// The step by this rule from two theorems.
    pub fn step(self, a: ThmId, b: ThmId) -> Step
        ensures { IsMade (pair_rule self) (NumberArg a.0 ∷ NumberArg b.0 ∷ []) result }
    {
        match self {
            PairRule::ImpElim => Step::ImpElim(a, b),
            PairRule::AndIntro => Step::AndIntro(a, b),
            PairRule::NotElim => Step::NotElim(a, b),
            PairRule::Iff => Step::Iff(a, b),
        }
    }
}

impl MixedRule {
    fn named(word: &[u8]) -> Option<MixedRule>
        ensures { IsNamed mixed_rule word.now result }
    {
        if word == b"impintro".as_slice() {
            Some(MixedRule::ImpIntro)
        } else if word == b"orleft".as_slice() {
            Some(MixedRule::OrLeft)
        } else if word == b"orright".as_slice() {
            Some(MixedRule::OrRight)
        } else if word == b"notintro".as_slice() {
            Some(MixedRule::NotIntro)
        } else if word == b"classical".as_slice() {
            Some(MixedRule::Classical)
        } else if word == b"allelim".as_slice() {
            Some(MixedRule::AllElim)
        } else {
            None
        }
    }

    /// The step by this rule with a term, from a theorem.
    pub fn step(self, term: Term, a: ThmId) -> Step
        ensures { IsMade (mixed_rule self) (TermArg term ∷ NumberArg a.0 ∷ []) result }
    {
        match self {
            MixedRule::ImpIntro => Step::ImpIntro(term, a),
            MixedRule::OrLeft => Step::OrLeft(term, a),
            MixedRule::OrRight => Step::OrRight(term, a),
            MixedRule::NotIntro => Step::NotIntro(term, a),
            MixedRule::Classical => Step::Classical(term, a),
            MixedRule::AllElim => Step::AllElim(term, a),
        }
    }
}

impl VariableRule {
    fn named(word: &[u8]) -> Option<VariableRule>
        ensures { IsNamed variable_rule word.now result }
    {
        if word == b"allintro".as_slice() {
            Some(VariableRule::AllIntro)
        } else if word == b"abs".as_slice() {
            Some(VariableRule::Abs)
        } else {
            None
        }
    }

    /// The step by this rule over a variable, from a theorem.
    pub fn step(self, variable: u64, ty: Ty, a: ThmId) -> Step
        ensures { IsMade (variable_rule self) (NumberArg variable ∷ TypeArg ty ∷ NumberArg a.0 ∷ []) result }
    {
        match self {
            VariableRule::AllIntro => Step::AllIntro(variable, ty, a),
            VariableRule::Abs => Step::Abs(variable, ty, a),
        }
    }
}

impl Rule {
    fn single(word: &[u8]) -> Option<Rule>
        ensures { IsNamedSingle word.now result }
    {
        if word == b"fact".as_slice() {
            Some(Rule::Fact)
        } else if word == b"trueintro".as_slice() {
            Some(Rule::TrueIntro)
        } else if word == b"orelim".as_slice() {
            Some(Rule::OrElim)
        } else if word == b"subst".as_slice() {
            Some(Rule::Subst)
        } else if word == b"exintro".as_slice() {
            Some(Rule::ExIntro)
        } else if word == b"inst".as_slice() {
            Some(Rule::Inst)
        } else {
            None
        }
    }

    /// The rule with this word.
    pub fn named(word: &[u8]) -> Option<Rule>
        ensures { IsNamed rule_of word.now result }
    {
        match Rule::single(word) {
            Some(rule) => Some(rule),
            None => match TermRule::named(word) {
                Some(rule) => Some(Rule::OfTerm(rule)),
                None => match TheoremRule::named(word) {
                    Some(rule) => Some(Rule::OfTheorem(rule)),
                    None => match PairRule::named(word) {
                        Some(rule) => Some(Rule::OfPair(rule)),
                        None => match MixedRule::named(word) {
                            Some(rule) => Some(Rule::Mixed(rule)),
                            None => match VariableRule::named(word) {
                                Some(rule) => Some(Rule::OfVariable(rule)),
                                None => None,
                            },
                        },
                    },
                },
            },
        }
    }
}
