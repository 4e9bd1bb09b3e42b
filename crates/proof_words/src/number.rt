ghost use Rattle.std.specs.Prelude.{◌≡◌, ◌+◌, ◌*◌, ◌-◌, ◌^◌, ◌<◌, ◌∷◌, List, ℕ, IsSome, MatchOption};
ghost use Rattle.proof_words.specs.Sharing.{IsRead};
ghost use Rattle.proof_words.specs.inner.Steps.{IsDigit, GoesNoFurther};

/// What a word says where a number is wanted.
#[derive(Clone, Copy, Debug, Drop, PartialEq, Eq)]
pub enum Number {
    /// The number that it writes.
    Is(u64),
    /// So many of its bytes begin a number, and no more do.
    Begins(usize),
}

/// Reads a word as a number below 2^64 without a leading zero, or tells how far it goes on as one.
pub fn read_number(word: &[u8]) -> Number
    ensures { IsRead word.now result }
{
    match word.first() {
        None => Number::Begins(0),
        Some(&first) => {
            if !first.is_ascii_digit() {
                Number::Begins(0)
            } else if first == b'0' {
                zero(word)
            } else {
                positive(word, first)
            }
        }
    }
}

/// What a word says that begins with the digit 0.
fn zero(word: &[u8]) -> Number
    requires { (rest : List ℕ) × (word.now ≡ 48 ∷ rest) }
    ensures { IsRead word.now result }
{
    if word.len() == 1 {
        Number::Is(0)
    } else {
        Number::Begins(1)
    }
}

/// What a word says that begins with a digit other than 0.
fn positive(word: &[u8], first: u8) -> Number
    requires front { (rest : List ℕ) × (word.now ≡ first ∷ rest) }
    requires digit { IsDigit first }
    requires positive { 48 < first }
    ensures { IsRead word.now result }
{
    let mut value = (first - b'0') as u64;
    let mut at = 1;
    'digits: while at < word.len() {
        match with_digit(value, word[at]) {
            None => return Number::Begins(at),
            Some(more) => value = more,
        }
        at += 1;
    }
    Number::Is(value)
}

/// The number with one digit more, where that is below 2^64.
fn with_digit(value: u64, byte: u8) -> Option<u64>
    ensures { MatchOption result (GoesNoFurther value byte) (λ more. IsDigit byte × (more ≡ 10 * value + (byte - 48)) × (more < 2 ^ 64)) }
{
    if byte.is_ascii_digit() {
        value.checked_mul(10)?.checked_add((byte - b'0') as u64)
    } else {
        None
    }
}
