ghost use Rattle.std.specs.Prelude.{◌≡◌};
ghost use Rattle.tptp_syntax.specs.Grammar.{is_symbol as is_symbol_of};
ghost use Rattle.tptp_syntax.specs.inner.Machine.{Takes, atom as atom_of, argued as argued_of, term as term_of, named as named_of, symbol as symbol_of, variable as variable_of, want_term as want_of};

use crate::Tok;
use crate::frames::Frame;
use crate::grown::{equation, holds};
use crate::reader::{Reader, Spot, Stop};
use crate::sorts::Mode;
use fo_terms::FoTerm;
use std::alloc::Global;
use text_kit::Rows;

/// A variable alone is no atom.
fn is_symbol(term: &FoTerm) -> bool
    ensures { result ≡ is_symbol_of term.now }
{
    match term {
        FoTerm::Var(_) => false,
        FoTerm::Fun(_, _) => true,
    }
}

impl Reader {
    /// Behind a term where a part of a formula began.
    fn atom(&mut self, alloc: Global, term: FoTerm, tok: Tok) -> Result<Spot, Stop>
        ensures { Takes (atom_of self.old term tok) self.new result }
    {
        match tok {
            Tok::Equal(equal) => {
                if equal || !self.frames.is_positive() {
                    self.frames.open(Frame::Side(equal, term))?;
                    Ok(Spot::WantTerm)
                } else {
                    Err(Stop::Syntax)
                }
            }
            _ => {
                if is_symbol(&term) {
                    self.have(alloc, Mode::Fresh, holds(term), tok)
                } else {
                    Err(Stop::Syntax)
                }
            }
        }
    }

    /// Behind an argument.
    fn argued(&mut self, symbol: u64, args: Rows<FoTerm>, tok: Tok) -> Result<Spot, Stop>
        ensures { Takes (argued_of self.old symbol args tok) self.new result }
    {
        match tok {
            Tok::Comma => {
                self.frames.open(Frame::Args(symbol, args))?;
                Ok(Spot::WantTerm)
            }
            Tok::Close(false) => Ok(Spot::Term(FoTerm::Fun(symbol, args))),
            _ => Err(Stop::Syntax),
        }
    }

    /// Behind a term.
    pub(crate) fn term(&mut self, alloc: Global, term: FoTerm, tok: Tok) -> Result<Spot, Stop>
        ensures { Takes (term_of self.old term tok) self.new result }
    {
        match self.frames.take() {
            None => self.atom(alloc, term, tok),
            Some(Frame::Args(symbol, before)) => {
                let mut args = before;
                args.push(term)?;
                self.argued(symbol, args, tok)
            }
            Some(Frame::Side(equal, left)) => {
                let whole = equation(alloc, equal, left, term)?;
                self.have(alloc, Mode::Fresh, whole, tok)
            }
            Some(other) => {
                self.frames.open(other)?;
                self.atom(alloc, term, tok)
            }
        }
    }

    /// Behind a symbol, whose arguments may follow.
    pub(crate) fn named(&mut self, alloc: Global, symbol: u64, tok: Tok) -> Result<Spot, Stop>
        ensures { Takes (named_of self.old symbol tok) self.new result }
    {
        match tok {
            Tok::Open(false) => {
                self.frames.open(Frame::Args(symbol, Rows::begin(alloc)))?;
                Ok(Spot::WantTerm)
            }
            _ => self.term(alloc, FoTerm::Fun(symbol, Rows::begin(alloc)), tok),
        }
    }

    fn symbol(&mut self, name: u64) -> Result<Spot, Stop>
        ensures { Takes (symbol_of self.old name) self.new result }
    {
        let number = self.symbols.number(name)?;
        Ok(Spot::Named(number))
    }

    /// A variable, which a `cnf` statement need not bind.
    fn variable(&mut self, name: u64) -> Result<Spot, Stop>
        ensures { Takes (variable_of self.old name) self.new result }
    {
        match self.scope.number(name) {
            Some(number) => Ok(Spot::Term(FoTerm::Var(number))),
            None => {
                if self.clausal {
                    let number = self.scope.len();
                    self.scope.enter(name)?;
                    Ok(Spot::Term(FoTerm::Var(number)))
                } else {
                    Err(Stop::Syntax)
                }
            }
        }
    }

    /// Where a term is due.
    pub(crate) fn want_term(&mut self, tok: Tok) -> Result<Spot, Stop>
        ensures { Takes (want_of self.old tok) self.new result }
    {
        match tok {
            Tok::Name(_, name) => self.symbol(name),
            Tok::Upper(name) => self.variable(name),
            _ => Err(Stop::Syntax),
        }
    }
}
