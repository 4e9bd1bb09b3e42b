ghost use Rattle.std.specs.Prelude.{◌≡◌, ◌<◌, ◌^◌, ◌↔◌, ℕ, Some, IsTrue, decimal, MatchOption, IfSome};
ghost use Rattle.sledge_words.specs.Lines.{IsNumber};

use itoa::Buffer;

fn is_written(word: &str, n: u32) -> bool
    ensures { IsTrue result ↔ (word.now ≡ decimal n) }
{
    let mut buffer = Buffer::new();
    buffer.format(n) == word
}

/// The number that a word writes, in digits without a leading zero.
fn number(word: &str) -> Option<u32>
    ensures is { IfSome result (λ n. word.now ≡ decimal n) }
    ensures only { (n : ℕ) → n < 2 ^ 32 → word.now ≡ decimal n → result ≡ Some n }
{
    match word.parse::<u32>() {
        Ok(n) => if is_written(word, n) { Some(n) } else { None },
        Err(_) => None,
    }
}

/// The number that a word writes in digits, without a sign and without a leading zero, where it is within its bounds.
pub fn number_within(word: &str, low: u32, high: u32) -> Option<u32>
    ensures { MatchOption result ((n : ℕ) → IsNumber low high word.now n → ⊥) (IsNumber low high word.now) }
{
    match number(word) {
        Some(n) => if low <= n && n <= high { Some(n) } else { None },
        None => None,
    }
}
