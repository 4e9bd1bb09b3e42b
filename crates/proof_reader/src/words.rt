ghost use Rattle.std.specs.Prelude.{◌≡◌, [], ◌∷◌, List, map, codes, MatchResult};
ghost use Rattle.proof_words.specs.Sharing.{IsOneOf};
ghost use Rattle.proof_syntax.specs.Tokens.{Tok, Word, cut};
ghost use Rattle.proof_syntax.specs.Machine.{rules};
ghost use Rattle.proof_reader.specs.inner.Rules.{rule_of};
ghost use Rattle.proof_reader.specs.inner.Words.{FailsWord, words_of};

use crate::rule::{Rule, WORDS};
use proof_syntax::PartFault;
use proof_terms::word;
use proof_words::shared_with;

/// The fault of a word at the front that is none of these.
pub fn other_word(text: &[u8], front: &[u8], words: &[&[u8]]) -> PartFault
    requires front { (rest : List Tok) × (cut text.now ≡ Word front.now ∷ rest) }
    requires other { IsOneOf (map (λ v. v.now) words.now) front.now → ⊥ }
    ensures { FailsWord (IsOneOf (map (λ v. v.now) words.now)) text.now result }
{
    PartFault::Stops(text.len() - shared_with(front, words))
}

/// The rule whose word stands at the front, and what stands behind it.
pub fn read_rule<'a>(text: &'a [u8]) -> Result<(Rule, &'a [u8]), PartFault>
    ensures { MatchResult result (λ r. cut text.now ≡ Word (rule_of r.0).word ∷ cut r.1.now) (λ e. FailsWord (IsOneOf (words_of rules)) text.now e) }
{
    match word(text) {
        None => Err(PartFault::Stops(text.len())),
        Some((name, rest)) => match Rule::named(name) {
            None => Err(other_word(text, name, &WORDS)),
            Some(rule) => Ok((rule, rest)),
        },
    }
}

/// What stands behind the word `goal`.
pub fn behind_goal(text: &[u8]) -> Result<&[u8], PartFault>
    ensures { MatchResult result (λ rest. cut text.now ≡ Word (codes "goal") ∷ cut rest.now) (λ e. FailsWord (IsOneOf (codes "goal" ∷ [])) text.now e) }
{
    match word(text) {
        None => Err(PartFault::Stops(text.len())),
        Some((name, rest)) => {
            if name == b"goal".as_slice() {
                Ok(rest)
            } else {
                Err(other_word(text, name, &[b"goal"]))
            }
        }
    }
}
