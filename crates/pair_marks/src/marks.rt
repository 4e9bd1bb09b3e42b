ghost use Rattle.std.specs.Prelude.{◌≡◌, true};
ghost use Rattle.pair_marks.specs.Sets.{need, offer, AllShare, Within};

use crate::tops::{Top, symbol_of};
use crate::words::{need_word, offer_word, share_word, symbol_word};

/// Sets of marks: three of 64, 61 and 59, for a symbol with the one below it, and one of 64 for the symbol alone.
#[derive(Clone, Copy, Drop)]
pub(crate) struct Marks {
    pub(crate) a: u64,
    pub(crate) b: u64,
    pub(crate) c: u64,
    pub(crate) symbols: u64,
}

/// No marks.
pub(crate) fn no_marks() -> Marks {
    Marks {
        a: 0,
        b: 0,
        c: 0,
        symbols: 0,
    }
}

/// What a term with this top needs of those that it is to meet.
pub(crate) fn need_of(top: Top) -> Marks
    ensures { result ≡ need top }
{
    Marks {
        a: need_word(64, top),
        b: need_word(61, top),
        c: need_word(59, top),
        symbols: symbol_word(64, symbol_of(top)),
    }
}

/// What a term with this top offers to those that seek it.
pub(crate) fn offer_of(top: Top) -> Marks
    ensures { result ≡ offer top }
{
    Marks {
        a: offer_word(64, top),
        b: offer_word(61, top),
        c: offer_word(59, top),
        symbols: symbol_word(64, symbol_of(top)),
    }
}

/// The marks of both.
pub(crate) fn union(left: Marks, right: Marks) -> Marks
    ensures first { Within left result }
    ensures second { Within right result }
{
    Marks {
        a: left.a | right.a,
        b: left.b | right.b,
        c: left.c | right.c,
        symbols: left.symbols | right.symbols,
    }
}

/// Whether the two share a mark in each set.
pub(crate) fn share(left: &Marks, right: &Marks) -> bool
    ensures { AllShare left.now right.now → result ≡ true }
{
    share_word(left.symbols, right.symbols)
        && share_word(left.a, right.a)
        && share_word(left.b, right.b)
        && share_word(left.c, right.c)
}
