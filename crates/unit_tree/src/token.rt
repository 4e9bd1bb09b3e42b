ghost use Rattle.std.specs.Prelude.{◌≡◌, ◌↔◌, ◌<◌, [], length, slice_index_or, IsTrue};
ghost use Rattle.unit_tree.specs.Tree.{token_of};

use fo_cells::Cell;
use text_kit::Rows;

/// A step on the way to a unit.
#[derive(Clone, Copy, Debug, Drop)]
pub enum Token {
    /// the sign of its literal, and whether this is an equation
    Head { positive: bool, equation: bool },
    /// a variable
    Variable(u64),
    /// a symbol with the number of its arguments
    Symbol { arity: u16, symbol: u64 },
    /// the end
    End,
}

/// A token and the node to which it leads.
#[derive(Clone, Copy, Debug, Drop)]
pub struct Edge {
    pub token: Token,
    pub to: usize,
}

pub fn cell_token(cell: Cell) -> Token
    ensures { result ≡ token_of cell }
{
    match cell {
        Cell::Var(x) => Token::Variable(x),
        Cell::Fun { arity, symbol, .. } => Token::Symbol { arity, symbol },
    }
}

pub fn same_token(a: &Token, b: &Token) -> bool
    ensures { IsTrue result ↔ (a.now ≡ b.now) }
{
    match (a, b) {
        (
            Token::Head {
                positive: p,
                equation: d,
            },
            Token::Head {
                positive: q,
                equation: e,
            },
        ) => *p == *q && *d == *e,
        (Token::Variable(x), Token::Variable(y)) => *x == *y,
        (
            Token::Symbol {
                arity: m,
                symbol: f,
            },
            Token::Symbol {
                arity: n,
                symbol: g,
            },
        ) => *f == *g && *m == *n,
        (Token::End, Token::End) => true,
        _ => false,
    }
}

/// The edges of a node.
pub fn edges_of(nodes: &[Rows<Edge>], at: usize) -> &[Edge]
    requires { at < length nodes.now }
    ensures { result.now ≡ slice_index_or nodes.now at [] }
{
    nodes[at].as_slice()
}
