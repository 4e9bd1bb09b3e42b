ghost use Rattle.std.specs.Prelude.{◌≡◌, ◌<◌, ◌≤◌, true};
ghost use Rattle.pair_marks.specs.Words.{place_of, mark_of, needed, offered, symbol_marks, Share};

use crate::tops::Top;

/// The place, in a word of so many marks, of a symbol with the symbol below it, or with none.
fn place(modulus: u64, f: u64, below: Option<u64>) -> u64
    requires above { 0 < modulus }
    requires within { modulus ≤ 64 }
    ensures value { result ≡ place_of modulus f below }
    ensures below { result < modulus }
{
    match below {
        None => f % 64 * 13 % modulus,
        Some(g) => (f % 64 * 13 + g % modulus + 1) % modulus,
    }
}

fn mark(modulus: u64, f: u64, below: Option<u64>) -> u64
    requires above { 0 < modulus }
    requires within { modulus ≤ 64 }
    ensures { result ≡ mark_of modulus f below }
{
    1 << place(modulus, f, below)
}

/// The marks, in a word of so many, of which a term that is to meet one with this top offers some.
pub(crate) fn need_word(modulus: u64, top: Top) -> u64
    requires above { 0 < modulus }
    requires within { modulus ≤ 64 }
    ensures { result ≡ needed modulus top }
{
    match top {
        Top::Any => u64::MAX,
        Top::Over(f) => mark(modulus, f, None),
        Top::Pair(f, g) => mark(modulus, f, Some(g)),
        Top::Sole(f) => mark(modulus, f, None),
    }
}

/// The marks, in a word of so many, that a term with this top offers.
pub(crate) fn offer_word(modulus: u64, top: Top) -> u64
    requires above { 0 < modulus }
    requires within { modulus ≤ 64 }
    ensures { result ≡ offered modulus top }
{
    match top {
        Top::Any | Top::Over(_) => u64::MAX,
        Top::Pair(f, g) => mark(modulus, f, Some(g)) | mark(modulus, f, None),
        Top::Sole(f) => mark(modulus, f, None),
    }
}

/// The mark, in a word of so many, of a term's symbol alone, or all of them.
pub(crate) fn symbol_word(modulus: u64, symbol: Option<u64>) -> u64
    requires above { 0 < modulus }
    requires within { modulus ≤ 64 }
    ensures { result ≡ symbol_marks modulus symbol }
{
    match symbol {
        None => u64::MAX,
        Some(f) => mark(modulus, f, None),
    }
}

/// Whether two words share a mark.
pub(crate) fn share_word(left: u64, right: u64) -> bool
    ensures { Share left right → result ≡ true }
{
    left & right != 0
}
