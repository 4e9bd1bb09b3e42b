ghost use Rattle.fo_terms.specs.NormalLaws.{HaveOneNormalForm, NormalFormStays};

use crate::Clause;

/// Two clauses that are instances of each other have one normal form. It does nothing: its contract is the law.
pub fn have_one_normal_form(left: &Clause, right: &Clause)
    ensures { HaveOneNormalForm left.now.literals right.now.literals }
{}

/// A normal form is its own normal form. It does nothing: its contract is the law.
pub fn normal_form_stays(clause: &Clause)
    ensures { NormalFormStays clause.now.literals }
{}
