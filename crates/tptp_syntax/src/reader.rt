ghost use Rattle.std.specs.Prelude.{◌≡◌};
ghost use Rattle.tptp_syntax.specs.inner.Machine.{first_reader};

use crate::frames::Frames;
use crate::grown::Grown;
use crate::names::{Scope, Symbols};
use crate::sorts::{Kind, Mode, Skip};
use crate::{Claimed, Quant};
use fo_terms::FoTerm;
use std::alloc::Global;
use text_kit::{NoMemory, Rows};

/// Why a token isn't taken.
#[derive(Clone, Copy, Debug, Drop, PartialEq, Eq)]
pub(crate) enum Stop {
    /// No problem goes on with it.
    Syntax,
    /// Memory ran out.
    NoMemory,
}

impl From<NoMemory> for Stop {
    ghost use Rattle.tptp_syntax.specs.declared.reader.Stop.TheVariants as stop;

    ghost from_gives = { λ _ e. e ≡ stop.NoMemory };

    fn from(_cause: NoMemory) -> Stop {
        Stop::NoMemory
    }
}

/// What is due next, or what was read last.
#[derive(Debug, Drop)]
pub(crate) enum Spot {
    /// a statement
    Top,
    /// a statement's bracket
    Open,
    /// its name
    Name,
    /// the comma behind the name
    NameEnd,
    /// its role
    Role,
    /// the comma behind the role
    RoleEnd,
    /// a part of a formula
    Want(Kind),
    /// a term
    WantTerm,
    /// `[` of a quantifier
    Square(Quant),
    /// a variable of it
    Variable(Quant),
    /// what stands behind the variable
    VariableEnd(Quant),
    /// the colon of a quantifier
    Colon,
    /// a symbol was read
    Named(u64),
    /// a term was read
    Term(FoTerm),
    /// a part of a formula was read
    Have(Mode, Grown),
    /// further parts of a statement
    Skip(Skip),
    /// a statement's dot
    Dot,
}

/// What was read of a problem, without what is due next.
#[derive(Drop)]
pub(crate) struct Reader {
    /// the statements
    pub done: Rows<Claimed>,
    /// whether one is the conjecture
    pub had: bool,
    /// whether this one is a `cnf` statement
    pub clausal: bool,
    /// its name
    pub name: u64,
    /// whether it is the conjecture
    pub conjecture: bool,
    /// the names that are symbols
    pub symbols: Symbols,
    /// the variables around
    pub scope: Scope,
    /// the parts that are open
    pub frames: Frames,
}

impl Reader {
    /// Before the first statement. It takes no memory.
    pub(crate) fn begin(alloc: Global) -> Reader
        ensures { result ≡ first_reader }
    {
        Reader {
            done: Rows::begin(alloc),
            had: false,
            clausal: false,
            name: 0,
            conjecture: false,
            symbols: Symbols::begin(alloc),
            scope: Scope::begin(alloc),
            frames: Frames::begin(alloc),
        }
    }
}
