ghost use Rattle.std.specs.Prelude.{◌≡◌, ◌≤◌, ◌<◌, ◌+◌, ◌∷◌, length, drop, nat_lt, MatchResult};
ghost use Rattle.tptp_syntax.specs.Grammar.{most};
ghost use Rattle.tptp_syntax.specs.Reading.{Reads, Halts};
ghost use Rattle.tptp_syntax.specs.inner.Machine.{Takes, step_at, level_of, open_behind, listed_of};

use crate::Tok;
use crate::reader::{Reader, Spot, Stop};
use first_fault::Fault;
use std::alloc::Global;

impl Reader {
    /// One token more.
    pub(crate) fn step(&mut self, alloc: Global, spot: Spot, tok: Tok) -> Result<Spot, Stop>
        ensures { Takes (step_at self.old spot tok) self.new result }
    {
        match spot {
            Spot::Top => self.top(tok),
            Spot::Open => self.open_due(tok),
            Spot::Name => self.name_due(tok),
            Spot::NameEnd => self.comma_due(Spot::Role, tok),
            Spot::Role => self.role_due(tok),
            Spot::RoleEnd => self.role_end(tok),
            Spot::Want(kind) => self.want(kind, tok),
            Spot::WantTerm => self.want_term(tok),
            Spot::Square(q) => self.square_due(q, tok),
            Spot::Variable(q) => self.variable_due(q, tok),
            Spot::VariableEnd(q) => self.variable_end(q, tok),
            Spot::Colon => self.colon_due(tok),
            Spot::Named(symbol) => self.named(alloc, symbol, tok),
            Spot::Term(term) => self.term(alloc, term, tok),
            Spot::Have(mode, part) => self.have(alloc, mode, part, tok),
            Spot::Skip(at) => self.skip(at, tok),
            Spot::Dot => self.dot_due(tok),
        }
    }
}

/// The most brackets that are open at once.
const MOST: u32 = 4_096;

/// Whether the token opens one bracket too many.
fn goes_beyond(depth: u32, tok: Tok) -> bool
    ensures { result ≡ nat_lt most (level_of depth tok) }
{
    matches!(tok, Tok::Open(_)) && depth >= MOST
}

/// The number of open brackets behind the token.
fn depth_behind(depth: u32, tok: Tok) -> u32
    requires { depth ≤ most }
    ensures { result ≡ open_behind depth tok }
{
    match tok {
        Tok::Open(_) => depth + 1,
        Tok::Close(_) => { if depth == 0 { 0 } else { depth - 1 } }
        _ => depth,
    }
}

/// The token at a place.
fn token_at(toks: &[Tok], at: usize) -> Tok
    requires { at < length toks.now }
    ensures { drop at toks.now ≡ result ∷ drop (at + 1) toks.now }
{
    toks[at]
}

/// Reads the tokens of a whole text, one after another.
pub(crate) fn read_tokens(alloc: Global, toks: &[Tok]) -> Result<Reader, Fault>
    ensures { MatchResult result (λ r. Reads toks.now (listed_of r)) (λ e. Halts toks.now e) }
{
    let mut reader = Reader::begin(alloc);
    let mut spot = Spot::Top;
    let mut depth = 0u32;
    let mut at = 0usize;
    'tokens: while at < toks.len() {
        let tok = token_at(toks, at);
        match reader.step(alloc, spot, tok) {
            Err(Stop::Syntax) => return Err(Fault::Syntax(at)),
            Err(Stop::NoMemory) => return Err(Fault::NoMemory),
            Ok(next) => {
                if goes_beyond(depth, tok) {
                    return Err(Fault::TooDeep(at));
                }
                spot = next;
                depth = depth_behind(depth, tok);
                at += 1;
            }
        }
    }
    match spot {
        Spot::Top => Ok(reader),
        _ => Err(Fault::Syntax(toks.len())),
    }
}
