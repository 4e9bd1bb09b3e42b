ghost use Rattle.std.specs.Prelude.{◌≡◌, ◌∷◌, [], ℕ, List, map, string_bytes, codes, MatchOption};
ghost use Rattle.sledge_words.specs.Lines.{IsNumber};
ghost use Rattle.fol_prover.specs.Replies.{IsAsked};

use sledge_words::number_within;

/// What the child is asked for.
#[derive(Clone, Copy, Debug, Drop)]
pub(crate) struct Asked {
    /// the most picks
    pub budget: u32,
    /// each pick whose number this divides takes the oldest clause
    pub age: u32,
}

/// The words behind `--budget` and `--age`, where there are these four.
fn numbers_in(words: &[String]) -> Option<(&str, &str)>
    ensures { MatchOption result ((b a : List ℕ) → map string_bytes words.now ≡ codes "--budget" ∷ b ∷ codes "--age" ∷ a ∷ [] → ⊥) (λ r. map string_bytes words.now ≡ codes "--budget" ∷ r.0.now ∷ codes "--age" ∷ r.1.now ∷ []) }
{
    match words {
        [first, budget, third, age] => {
            if first.as_str() == "--budget" && third.as_str() == "--age" {
                Some((budget.as_str(), age.as_str()))
            } else {
                None
            }
        }
        _ => None,
    }
}

/// The two numbers, where they are within their bounds.
fn numbers_of(budget: &str, age: &str) -> Option<Asked>
    ensures { MatchOption result ((b a : ℕ) → IsNumber 1 1000000 budget.now b → IsNumber 1 1000 age.now a → ⊥) (λ n. IsNumber 1 1000000 budget.now n.budget × IsNumber 1 1000 age.now n.age) }
{
    match number_within(budget, 1, 1_000_000) {
        None => None,
        Some(budget) => match number_within(age, 1, 1_000) {
            None => None,
            Some(age) => Some(Asked { budget, age }),
        },
    }
}

/// What the words ask for: `--budget`, a number, `--age` and a number.
pub(crate) fn read_asked(words: &[String]) -> Option<Asked>
    ensures { MatchOption result ((b a : ℕ) → IsAsked (map string_bytes words.now) b a → ⊥) (λ n. IsAsked (map string_bytes words.now) n.budget n.age) }
{
    match numbers_in(words) {
        None => None,
        Some((budget, age)) => numbers_of(budget, age),
    }
}
