ghost use Rattle.tagged_terms.specs.Laws.{ReadingsAreTerms, SubstitutionKeepsReadings, ReadingsHaveTypes, ReplacementsJoin, InTurnIsAtOnce, UnifiersFit};

use fo_terms::FoTerm;
use fo_unify::Bind;
use hol_terms::Term;

/// What a term is read as is what it stands for whatever the types of the variables. It does nothing: its contract is
/// the law.
pub fn readings_are_terms(t: &FoTerm)
    ensures { ReadingsAreTerms t.now }
{}

/// A substitution of cores of the variables' types keeps what terms are read as. It does nothing: its contract is
/// the law.
pub fn substitution_keeps_readings(t: &FoTerm)
    ensures { SubstitutionKeepsReadings t.now }
{}

/// A term is read as a term of its type, without loose indexes and auxiliary constants. It does nothing: its contract is the law.
pub fn readings_have_types(t: &FoTerm)
    ensures { ReadingsHaveTypes t.now }
{}

/// Two replacements of variables are one. It does nothing: its contract is the law.
pub fn replacements_join(t: &Term)
    ensures { ReplacementsJoin t.now }
{}

/// Instances put in one after another are put in at once, where later ones leave what earlier ones put in. It does
/// nothing: its contract is the law.
pub fn in_turn_is_at_once(t: &Term)
    ensures { InTurnIsAtOnce t.now }
{}

/// What unification of well-tagged terms binds fits the variables' types. It does nothing: its contract is the law.
pub fn unifiers_fit(binds: &[Bind])
    ensures { UnifiersFit binds.now }
{}
