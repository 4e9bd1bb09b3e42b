ghost use Rattle.std.specs.Prelude.{◌≡◌, length, IfOk, OnOk, if◌then◌else◌};
ghost use Rattle.tptp_syntax.specs.Grammar.{may_join as may_join_in, same_chain as same_chain_of, first_kind as first_of, negated as negated_of};
ghost use Rattle.tptp_syntax.specs.inner.Machine.{Takes, Settles, settle as settled_of, finished, may_couple as may_couple_in, round_mode as mode_of_round, close_in, divide as divided, behind as behind_of, have as have_of, want as want_of, negate_to, quantify as quantified_at, may_open as may_open_at, square_due as square_of, variable_due as variable_of, variable_end as end_of_variable, colon_due as colon_of};

use crate::frames::Frame;
use crate::grown::{Grown, closed_over, truth};
use crate::names::Scope;
use crate::reader::{Reader, Spot, Stop};
use crate::settling::settled_unit;
use crate::sorts::{Kind, Mode, Skip};
use crate::{Chain, Claimed, Quant, Tok};
use std::alloc::Global;
use text_kit::NoMemory;

fn same_chain(left: Chain, right: Chain) -> bool
    ensures { result ≡ same_chain_of left right }
{
    match (left, right) {
        (Chain::And, Chain::And) => true,
        (Chain::Or, Chain::Or) => true,
        _ => false,
    }
}

/// Whether this sign may follow. In a `cnf` statement only `|` joins.
fn may_join(clausal: bool, mode: Mode, sign: Chain) -> bool
    ensures { result ≡ may_join_in clausal mode sign }
{
    let goes_on = match mode {
        Mode::Fresh => true,
        Mode::Chained(before) => same_chain(before, sign),
        Mode::Ended => false,
    };
    goes_on && (!clausal || same_chain(sign, Chain::Or))
}

/// Whether a sign that doesn't chain may follow.
fn may_couple(clausal: bool, mode: Mode) -> bool
    ensures { result ≡ may_couple_in clausal mode }
{
    match mode {
        Mode::Fresh => !clausal,
        _ => false,
    }
}

fn first_kind(clausal: bool) -> Kind
    ensures { result ≡ first_of clausal }
{
    if clausal { Kind::Literal } else { Kind::Unit }
}

/// What `~` takes, where it may stand.
fn negated(kind: Kind) -> Option<Kind>
    ensures { result ≡ negated_of kind }
{
    match kind {
        Kind::Unit => Some(Kind::Unit),
        Kind::Literal => Some(Kind::Positive),
        Kind::Positive => None,
    }
}

/// Brackets around a whole clause end it.
fn round_mode(clausal: bool) -> Mode
    ensures { result ≡ mode_of_round clausal }
{
    if clausal { Mode::Ended } else { Mode::Fresh }
}

impl Reader {
    fn settle(&mut self, alloc: Global, mode: Mode, part: Grown) -> Result<(Mode, Grown), NoMemory>
        ensures { Settles (settled_of mode part self.old.frames self.old.scope) (record self.old { frames = (settled_of mode part self.old.frames self.old.scope).frames; scope = (settled_of mode part self.old.frames self.old.scope).scope }) self.new result }
    {
        match mode {
            Mode::Fresh => settled_unit(alloc, part, &mut self.frames, &mut self.scope),
            Mode::Chained(_) => Ok((mode, part)),
            Mode::Ended => Ok((mode, part)),
        }
    }

    /// Ends a statement with this formula.
    fn finish(&mut self, alloc: Global, a: Grown) -> Result<(), NoMemory>
        ensures { OnOk result (self.new ≡ finished self.old a) }
    {
        let whole = if self.clausal {
            closed_over(alloc, self.scope.len(), a)?
        } else {
            a
        };
        let claim = Claimed {
            name: self.name,
            conjecture: self.conjecture,
            formula: whole.into_formula(),
        };
        self.done.push(claim)?;
        self.had = self.had || self.conjecture;
        self.scope = Scope::begin(alloc);
        Ok(())
    }

    /// A bracket closes behind a formula: its own, or the statement's.
    fn close(&mut self, alloc: Global, a: Grown) -> Result<Spot, Stop>
        ensures { Takes (close_in self.old a self.old.frames) self.new result }
    {
        match self.frames.take() {
            None => {
                self.finish(alloc, a)?;
                Ok(Spot::Dot)
            }
            Some(Frame::Round) => Ok(Spot::Have(round_mode(self.clausal), a)),
            Some(Frame::Args(_, _)) => Err(Stop::Syntax),
            Some(Frame::Side(_, _)) => Err(Stop::Syntax),
            Some(Frame::Not(_)) => Err(Stop::Syntax),
            Some(Frame::Bind(_)) => Err(Stop::Syntax),
            Some(Frame::Join(_, _)) => Err(Stop::Syntax),
            Some(Frame::Couple(_, _)) => Err(Stop::Syntax),
            Some(Frame::Group(_, _)) => Err(Stop::Syntax),
        }
    }

    /// A comma ends a statement's formula.
    fn divide(&mut self, alloc: Global, a: Grown) -> Result<Spot, Stop>
        ensures { Takes (divided self.old a) self.new result }
    {
        if self.frames.is_empty() {
            self.finish(alloc, a)?;
            Ok(Spot::Skip(Skip::Begun))
        } else {
            Err(Stop::Syntax)
        }
    }

    /// Behind a part that nothing on its left takes.
    fn behind(&mut self, alloc: Global, mode: Mode, a: Grown, tok: Tok) -> Result<Spot, Stop>
        ensures { Takes (behind_of self.old mode a tok) self.new result }
    {
        match tok {
            Tok::Chain(sign) => {
                if may_join(self.clausal, mode, sign) {
                    self.frames.open(Frame::Join(sign, a))?;
                    Ok(Spot::Want(first_kind(self.clausal)))
                } else {
                    Err(Stop::Syntax)
                }
            }
            Tok::Pair(sign) => {
                if may_couple(self.clausal, mode) {
                    self.frames.open(Frame::Couple(sign, a))?;
                    Ok(Spot::Want(Kind::Unit))
                } else {
                    Err(Stop::Syntax)
                }
            }
            Tok::Close(false) => self.close(alloc, a),
            Tok::Comma => self.divide(alloc, a),
            _ => Err(Stop::Syntax),
        }
    }

    /// Behind a part of a formula.
    pub(crate) fn have(
        &mut self,
        alloc: Global,
        mode: Mode,
        a: Grown,
        tok: Tok,
    ) -> Result<Spot, Stop>
        ensures { Takes (have_of self.old mode a tok) self.new result }
    {
        let (mode, whole) = self.settle(alloc, mode, a)?;
        self.behind(alloc, mode, whole, tok)
    }

    fn negate(&mut self, kind: Kind) -> Result<Spot, Stop>
        ensures { Takes (negate_to self.old (negated_of kind)) self.new result }
    {
        match negated(kind) {
            None => Err(Stop::Syntax),
            Some(inner) => {
                self.frames.open(Frame::Not(inner == Kind::Positive))?;
                Ok(Spot::Want(inner))
            }
        }
    }

    fn quantify(&mut self, kind: Kind, q: Quant) -> Result<Spot, Stop>
        ensures { Takes (quantified_at self.old kind q) self.new result }
    {
        match kind {
            Kind::Unit => Ok(Spot::Square(q)),
            _ => Err(Stop::Syntax),
        }
    }

    /// Whether `(` may begin a part of this kind.
    fn may_open(&self, kind: Kind) -> bool
        ensures { result ≡ may_open_at kind self.now.frames }
    {
        match kind {
            Kind::Unit => true,
            Kind::Literal => self.frames.is_outset(),
            Kind::Positive => false,
        }
    }

    /// Where a part of a formula is due.
    pub(crate) fn want(&mut self, kind: Kind, tok: Tok) -> Result<Spot, Stop>
        ensures { Takes (want_of self.old kind tok) self.new result }
    {
        match tok {
            Tok::Truth(holds) => Ok(Spot::Have(Mode::Fresh, truth(holds))),
            Tok::Tilde => self.negate(kind),
            Tok::Quant(q) => self.quantify(kind, q),
            Tok::Open(false) => {
                if self.may_open(kind) {
                    self.frames.open(Frame::Round)?;
                    Ok(Spot::Want(kind))
                } else {
                    Err(Stop::Syntax)
                }
            }
            _ => self.want_term(tok),
        }
    }

    /// Where a quantifier's bracket is due.
    pub(crate) fn square_due(&mut self, q: Quant, tok: Tok) -> Result<Spot, Stop>
        ensures { Takes (square_of self.old q tok) self.new result }
    {
        match tok {
            Tok::Open(true) => Ok(Spot::Variable(q)),
            _ => Err(Stop::Syntax),
        }
    }

    /// Where a quantifier's variable is due.
    pub(crate) fn variable_due(&mut self, q: Quant, tok: Tok) -> Result<Spot, Stop>
        ensures { Takes (variable_of self.old q tok) self.new result }
    {
        match tok {
            Tok::Upper(name) => {
                self.scope.enter(name)?;
                self.frames.open(Frame::Bind(q))?;
                Ok(Spot::VariableEnd(q))
            }
            _ => Err(Stop::Syntax),
        }
    }

    /// Behind a quantifier's variable.
    pub(crate) fn variable_end(&mut self, q: Quant, tok: Tok) -> Result<Spot, Stop>
        ensures { Takes (end_of_variable self.old q tok) self.new result }
    {
        match tok {
            Tok::Comma => Ok(Spot::Variable(q)),
            Tok::Close(true) => Ok(Spot::Colon),
            _ => Err(Stop::Syntax),
        }
    }

    /// Where a quantifier's colon is due.
    pub(crate) fn colon_due(&mut self, tok: Tok) -> Result<Spot, Stop>
        ensures { Takes (colon_of self.old tok) self.new result }
    {
        match tok {
            Tok::Colon => Ok(Spot::Want(Kind::Unit)),
            _ => Err(Stop::Syntax),
        }
    }
}
