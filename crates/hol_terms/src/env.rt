ghost use Rattle.std.specs.Prelude.{◌<◌, IsTrue};
ghost use Rattle.std.specs.List.{list_all};
ghost use Rattle.hol_terms.specs.Formulas.{is_sentence};

use crate::{Sig, Term};
use text_kit::Rows;

/// What a goal is proved from: the signature, the facts before the goal and then its assumptions, and the goal.
///
/// The type keeps that the signature has bool, and that each fact and the goal is a sentence over it.
#[derive(Debug, Drop)]
pub struct Env {
    pub sig: Sig,
    pub facts: Rows<Term>,
    pub goal: Term,
    pub ghost has_bool: { 0 < sig.types },
    pub ghost facts_are_sentences: { IsTrue (list_all (is_sentence sig) facts) },
    pub ghost goal_is_sentence: { IsTrue (is_sentence sig goal) },
}
