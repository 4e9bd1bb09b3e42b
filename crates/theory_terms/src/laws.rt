ghost use Rattle.theory_terms.specs.Laws.{TypesFit, SentencesAreSentences};

use crate::Known;
use theory_syntax::{Tree, TyTree};

/// A type that is read has base types of the signature alone. It does nothing: its contract is the law.
pub fn types_fit(text: &[u8], known: &Known, tree: &TyTree)
    ensures { TypesFit text.now known.now tree.now }
{}

/// What is read is a sentence over the signature, where the constants' types have base types of it alone. It does
/// nothing: its contract is the law.
pub fn sentences_are_sentences(text: &[u8], known: &Known, tree: &Tree)
    ensures { SentencesAreSentences text.now known.now tree.now }
{}
