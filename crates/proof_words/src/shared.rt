ghost use Rattle.std.specs.Prelude.{◌≡◌, map, nat_eq};
ghost use Rattle.std.specs.List.{common_prefix_len};
ghost use Rattle.proof_words.specs.Sharing.{Shares, IsOneOf};

/// How many bytes at the front of a word, at most, are those of one of the words, none of which it is.
pub fn shared_with(word: &[u8], words: &[&[u8]]) -> usize
    requires { IsOneOf (map (λ v. v.now) words.now) word.now → ⊥ }
    ensures { Shares (IsOneOf (map (λ v. v.now) words.now)) word.now result }
{
    let mut most = 0;
    for other in words {
        most = most.max(common(word, *other));
    }
    most
}

/// How many bytes at the front of a word are those of another.
fn common(word: &[u8], other: &[u8]) -> usize
    ensures { result ≡ common_prefix_len nat_eq word.now other.now }
{
    let mut at = 0;
    'same: while at < word.len() && at < other.len() && word[at] == other[at] {
        at += 1;
    }
    at
}
