ghost use Rattle.std.specs.Prelude.{◌≡◌, [], ◌∷◌, OnOk, MatchOption};

use hol_terms::Ty;
use std::alloc::Global;
use std::marker::Model;
use text_kit::{NoMemory, Rows};

/// The most sides that are open at once, and so the depth of the deepest type: what walks down a type needs the machine's
/// stack, which holds so many levels and more.
const MOST: usize = 50_000;

/// A side of an arrow that is open.
#[derive(Debug, Drop)]
pub(crate) enum Side {
    /// The left one.
    From,
    /// The right one, behind this left one.
    To(Ty),
}

/// Open sides, of which contracts see the innermost first.
#[derive(Drop)]
pub(crate) struct Sides {
    outermost_first: Rows<Side>,
}

impl Model for Sides {
    ghost use Rattle.std.specs.Prelude.{List, reverse};
    ghost use Rattle.std.specs.Coded.{codes};
    ghost use Rattle.hol_terms.specs.contracts.ty.Ty as ty;
    ghost use Rattle.proof_terms.specs.declared.sides.Side as side;

    ghost Value = { List side.Side };

    ghost coded = { Prim.hlevel (codes, ty.the_row.coded) };

    ghost view = { λ s. reverse s.outermost_first };
}

impl Sides {
    /// No open sides. It takes no memory.
    pub(crate) fn begin(alloc: Global) -> Sides
        ensures { result ≡ [] }
    {
        Sides {
            outermost_first: Rows::begin(alloc),
        }
    }

    /// Opens a side within the others. Above 50,000 of them the answer is want of memory.
    pub(crate) fn open(&mut self, side: Side) -> Result<(), NoMemory>
        ensures { OnOk result (self.new ≡ side ∷ self.old) }
    {
        if self.outermost_first.len() < MOST {
            self.outermost_first.push(side)
        } else {
            Err(NoMemory)
        }
    }

    /// Takes the innermost side.
    pub(crate) fn take(&mut self) -> Option<Side>
        ensures { MatchOption result ((self.old ≡ []) × (self.new ≡ [])) (λ side. self.old ≡ side ∷ self.new) }
    {
        self.outermost_first.pop()
    }
}
