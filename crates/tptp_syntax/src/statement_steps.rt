ghost use Rattle.std.specs.Prelude.{◌≡◌};
ghost use Rattle.tptp_syntax.specs.declared.reader.Spot.TheVariants as spot;
ghost use Rattle.tptp_syntax.specs.Grammar.{first_kind as first_of};
ghost use Rattle.tptp_syntax.specs.inner.Machine.{Takes, top as top_of, open_due as open_of, name_due as name_of, comma_due as comma_of, role_due as role_of, dot_due as dot_of};

use crate::Tok;
use crate::reader::{Reader, Spot, Stop};
use crate::sorts::Kind;

/// The words with numbers that the grammar knows.
const FOF: u64 = 0;

const CNF: u64 = 1;

const CONJECTURE: u64 = 2;

impl Reader {
    /// Where a statement is due.
    pub(crate) fn top(&mut self, tok: Tok) -> Result<Spot, Stop>
        ensures { Takes (top_of self.old tok) self.new result }
    {
        match tok {
            Tok::Name(false, word) => {
                if word == FOF {
                    self.clausal = false;
                    Ok(Spot::Open)
                } else if word == CNF {
                    self.clausal = true;
                    Ok(Spot::Open)
                } else {
                    Err(Stop::Syntax)
                }
            }
            _ => Err(Stop::Syntax),
        }
    }

    /// Where a statement's bracket is due.
    pub(crate) fn open_due(&mut self, tok: Tok) -> Result<Spot, Stop>
        ensures { Takes (open_of self.old tok) self.new result }
    {
        match tok {
            Tok::Open(false) => Ok(Spot::Name),
            _ => Err(Stop::Syntax),
        }
    }

    /// Where a statement's name is due.
    pub(crate) fn name_due(&mut self, tok: Tok) -> Result<Spot, Stop>
        ensures { Takes (name_of self.old tok) self.new result }
    {
        match tok {
            Tok::Name(_, name) => {
                self.name = name;
                Ok(Spot::NameEnd)
            }
            _ => Err(Stop::Syntax),
        }
    }

    /// Where a comma is due, and then this.
    pub(crate) fn comma_due(&mut self, next: Spot, tok: Tok) -> Result<Spot, Stop>
        ensures { Takes (comma_of self.old next tok) self.new result }
    {
        match tok {
            Tok::Comma => Ok(next),
            _ => Err(Stop::Syntax),
        }
    }

    /// Where a statement's role is due. There is at most one conjecture.
    pub(crate) fn role_due(&mut self, tok: Tok) -> Result<Spot, Stop>
        ensures { Takes (role_of self.old tok) self.new result }
    {
        match tok {
            Tok::Name(false, role) => {
                let conjecture = role == CONJECTURE;
                if self.had && conjecture {
                    Err(Stop::Syntax)
                } else {
                    self.conjecture = conjecture;
                    Ok(Spot::RoleEnd)
                }
            }
            _ => Err(Stop::Syntax),
        }
    }

    /// Behind a statement's role: a comma, and then its formula.
    pub(crate) fn role_end(&mut self, tok: Tok) -> Result<Spot, Stop>
        ensures { Takes (comma_of self.old (spot.Want (first_of self.old.clausal)) tok) self.new result }
    {
        let next = Spot::Want(if self.clausal {
            Kind::Literal
        } else {
            Kind::Unit
        });
        self.comma_due(next, tok)
    }

    /// Where a statement's dot is due.
    pub(crate) fn dot_due(&mut self, tok: Tok) -> Result<Spot, Stop>
        ensures { Takes (dot_of self.old tok) self.new result }
    {
        match tok {
            Tok::Dot => Ok(Spot::Top),
            _ => Err(Stop::Syntax),
        }
    }
}
