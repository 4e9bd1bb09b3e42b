ghost use Rattle.std.specs.Prelude.{IsTrue};
ghost use Rattle.theory_terms.specs.Signature.{sig_of};
ghost use Rattle.theory_reader.specs.Sound.{facts_hold_sentences, goals_hold_sentences, are_named, are_distinct, are_behind, are_few, are_numbered};

use crate::{Fact, Goal};
use text_kit::{Bytes, Rows};
use theory_terms::Decl;

/// What a theory file declares, each list in the order of the file.
///
/// The type keeps that each formula is a sentence over the types and constants, that each name is a word that isn't
/// reserved, that no two types, constants, facts or goals have one name, nor two facts that one goal is proved from,
/// and the limits of the language.
#[derive(Debug, Drop)]
pub struct Theory {
    /// The names of the base types behind `bool`: `Base(1)` is the first.
    pub types: Rows<Bytes>,
    /// The constants: `Named(0)` is the first.
    pub consts: Rows<Decl>,
    pub facts: Rows<Fact>,
    pub goals: Rows<Goal>,
    pub ghost facts_are_sentences: { IsTrue (facts_hold_sentences (sig_of (record { types = types; consts = consts })) facts) },
    pub ghost goals_are_sentences: { IsTrue (goals_hold_sentences (sig_of (record { types = types; consts = consts })) goals) },
    pub ghost names_are_words: { IsTrue (are_named types consts facts goals) },
    pub ghost names_differ: { IsTrue (are_distinct types consts facts goals) },
    pub ghost places_exist: { IsTrue (are_behind facts goals) },
    pub ghost limits_hold: { IsTrue (are_few facts goals) },
    pub ghost numbers_fit: { IsTrue (are_numbered types goals) },
}
