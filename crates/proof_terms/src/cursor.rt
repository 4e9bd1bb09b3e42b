ghost use Rattle.std.specs.Prelude.{◌≡◌, ◌∷◌, ◌++◌, ◌≤◌, false, length, drop, MatchOption};
ghost use Rattle.std.specs.List.{prefix_len};
ghost use Rattle.text_kit.specs.Tokens.{is_word_byte};
ghost use Rattle.proof_syntax.specs.Tokens.{Word, Mark, sign_of, cut};
ghost use Rattle.proof_syntax.specs.Parts.{IsNot, NoWord};

/// What stands behind a sign, where the text begins with it.
pub fn sign(wanted: u8, text: &[u8]) -> Option<&[u8]>
    requires { is_word_byte wanted ≡ false }
    ensures { MatchOption result (IsNot (Mark (sign_of wanted)) (cut text.now)) (λ rest. cut text.now ≡ Mark (sign_of wanted) ∷ cut rest.now) }
{
    match text {
        [] => None,
        [first, rest @ ..] => { if *first == wanted { Some(rest) } else { None } }
    }
}

fn is_byte_of_word(byte: u8) -> bool
    ensures { result ≡ is_word_byte byte }
{
    byte.is_ascii_alphanumeric() || byte == b'_'
}

fn word_len(text: &[u8]) -> usize
    ensures value { result ≡ prefix_len is_word_byte text.now }
    ensures within { result ≤ length text.now }
{
    text.iter().take_while(|b| is_byte_of_word(**b)).count()
}

/// The word at the front of a text, and what stands behind it.
pub fn word(text: &[u8]) -> Option<(&[u8], &[u8])>
    ensures { MatchOption result (NoWord (cut text.now)) (λ r. cut text.now ≡ Word r.0.now ∷ cut r.1.now) }
{
    let len = word_len(text);
    if len == 0 {
        None
    } else {
        Some(text.split_at(len))
    }
}
