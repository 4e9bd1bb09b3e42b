ghost use Rattle.std.specs.Prelude.{◌≡◌, List, [], ◌∷◌, OnOk, MatchOption};
ghost use Rattle.tptp_syntax.specs.declared.frames.Frame.{Frame as FrameOf};
ghost use Rattle.tptp_syntax.specs.inner.Machine.{is_positive as is_positive_at, is_outset as is_outset_at, is_empty as is_empty_at};

use crate::grown::Grown;
use crate::sorts::Skip;
use crate::{Chain, Pair, Quant};
use fo_terms::FoTerm;
use std::alloc::Global;
use std::marker::Model;
use text_kit::{NoMemory, Rows};

/// A part that is open: its right end has not come.
#[derive(Debug, Drop)]
pub(crate) enum Frame {
    /// a symbol's arguments so far
    Args(u64, Rows<FoTerm>),
    /// the left side of an equation, or of a negated one
    Side(bool, FoTerm),
    /// `~`, in a `cnf` statement where the part is `true`
    Not(bool),
    /// a quantifier with one variable
    Bind(Quant),
    /// the left part of a chain
    Join(Chain, Grown),
    /// the left part of a pair
    Couple(Pair, Grown),
    /// `(` around a formula
    Round,
    /// a bracket in a further part, and the place behind it
    Group(bool, Skip),
}

/// Open parts, of which contracts see the innermost first.
#[derive(Drop)]
pub(crate) struct Frames {
    outermost_first: Rows<Frame>,
}

impl Model for Frames {
    ghost use Rattle.std.specs.Prelude.{List, reverse};
    ghost use Rattle.std.specs.Coded.{codes};
    ghost use Rattle.tptp_syntax.specs.declared.frames.Frame as frame;
    ghost use Rattle.tptp_syntax.specs.contracts.frames.Frame as row;

    ghost Value = { List frame.Frame };

    ghost coded = { Prim.hlevel (codes, row.the_row.coded) };

    ghost view = { λ s. reverse s.outermost_first };
}

impl Frames {
    /// No open parts. It takes no memory.
    pub(crate) fn begin(alloc: Global) -> Frames
        ensures { result ≡ [] }
    {
        Frames {
            outermost_first: Rows::begin(alloc),
        }
    }

    /// Opens a part within the others.
    pub(crate) fn open(&mut self, frame: Frame) -> Result<(), NoMemory>
        ensures { OnOk result (self.new ≡ frame ∷ self.old) }
    {
        self.outermost_first.push(frame)
    }

    /// Takes the innermost part.
    pub(crate) fn take(&mut self) -> Option<Frame>
        ensures { MatchOption result ((self.old ≡ []) × (self.new ≡ [])) (λ frame. self.old ≡ frame ∷ self.new) }
    {
        self.outermost_first.pop()
    }

    /// Whether none is open.
    pub(crate) fn is_empty(&self) -> bool
        ensures { result ≡ is_empty_at self.now }
    {
        self.outermost_first.len() == 0
    }

    /// The innermost part.
    fn innermost(&self) -> Option<&Frame>
        ensures { MatchOption result (self.now ≡ []) (λ f. (k : List FrameOf) × (self.now ≡ f.now ∷ k)) }
    {
        match self.outermost_first.len() {
            0 => None,
            some => Some(self.outermost_first.at(some - 1)),
        }
    }

    /// Whether a formula begins here.
    pub(crate) fn is_outset(&self) -> bool
        ensures { result ≡ is_outset_at self.now }
    {
        match self.innermost() {
            None => true,
            Some(Frame::Round) => true,
            Some(_) => false,
        }
    }

    /// Whether the place is behind `~` in a `cnf` statement.
    pub(crate) fn is_positive(&self) -> bool
        ensures { result ≡ is_positive_at self.now }
    {
        match self.innermost() {
            Some(Frame::Not(clausal)) => *clausal,
            _ => false,
        }
    }
}
