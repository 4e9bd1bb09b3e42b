ghost use Rattle.std.specs.Prelude.{◌≡◌, ◌↔◌, ℕ, ◌<◌, ◌∷◌, List, length, map, IsTrue};
ghost use Rattle.fo_terms.specs.declared.term.FoTerm.{FoTerm};
ghost use Rattle.fo_cells.specs.Cells.{joined, cells_of};
ghost use Rattle.unit_tree.specs.declared.token.Token.{Token};
ghost use Rattle.unit_tree.specs.declared.token.Token.TheVariants.{Variable};
ghost use Rattle.unit_tree.specs.Tree.{IsTree};
ghost use Rattle.fo_cells.specs.Binds.{Agrees, binds_of};
ghost use Rattle.unit_tree.specs.inner.Following.{GoesOn, Matches};

use crate::token::{Edge, Token, edges_of};
use fo_cells::{Binds, Cell, after_symbol, bound, same_cells, split_term};
use text_kit::Rows;

/// Whether a way from this node on is that of the terms.
#[cycle(following)]
pub fn goes_on(nodes: &[Rows<Edge>], at: usize, cells: &[Cell], binds: &Binds) -> bool
    requires tree { IsTree nodes.now }
    requires within { at < length nodes.now }
    requires row { (ts : List FoTerm) × (joined (map cells_of ts) ≡ cells.now) }
    requires agree { (v : ℕ → FoTerm) × Agrees v (binds_of binds.now) }
    ensures { (ts : List FoTerm) → joined (map cells_of ts) ≡ cells.now → IsTrue result ↔ ((word : List Token) × GoesOn nodes.now at word × ((v : ℕ → FoTerm) × Agrees v (binds_of binds.now) × Matches v word ts)) }
{
    for edge in edges_of(&*nodes, at) {
        if follows(&*nodes, edge, &*cells, &*binds) {
            return true;
        }
    }
    false
}

#[cycle(following)]
fn follows(nodes: &[Rows<Edge>], edge: &Edge, cells: &[Cell], binds: &Binds) -> bool
    requires tree { IsTree nodes.now }
    requires within { edge.now.to < length nodes.now }
    requires row { (ts : List FoTerm) × (joined (map cells_of ts) ≡ cells.now) }
    requires agree { (v : ℕ → FoTerm) × Agrees v (binds_of binds.now) }
    ensures { (ts : List FoTerm) → joined (map cells_of ts) ≡ cells.now → IsTrue result ↔ ((word : List Token) × GoesOn nodes.now edge.now.to word × ((v : ℕ → FoTerm) × Agrees v (binds_of binds.now) × Matches v (edge.now.token ∷ word) ts)) }
{
    match edge.token {
        Token::Head { .. } => false,
        Token::End => cells.is_empty(),
        Token::Symbol { arity, symbol } => match after_symbol(&*cells, arity, symbol) {
            Some(rest) => goes_on(&*nodes, edge.to, rest, &*binds),
            None => false,
        },
        Token::Variable(x) => binds_on(&*nodes, edge.to, x, &*cells, &*binds),
    }
}

#[cycle(following)]
fn binds_on(nodes: &[Rows<Edge>], at: usize, x: u64, cells: &[Cell], binds: &Binds) -> bool
    requires tree { IsTree nodes.now }
    requires within { at < length nodes.now }
    requires row { (ts : List FoTerm) × (joined (map cells_of ts) ≡ cells.now) }
    requires agree { (v : ℕ → FoTerm) × Agrees v (binds_of binds.now) }
    ensures { (ts : List FoTerm) → joined (map cells_of ts) ≡ cells.now → IsTrue result ↔ ((word : List Token) × GoesOn nodes.now at word × ((v : ℕ → FoTerm) × Agrees v (binds_of binds.now) × Matches v (Variable x ∷ word) ts)) }
{
    if cells.is_empty() {
        return false;
    }
    let (first, rest) = split_term(&*cells);
    match bound(&*binds, x) {
        Some(held) => {
            if !same_cells(held, first) {
                return false;
            }
            goes_on(&*nodes, at, rest, &*binds)
        }
        None => goes_on(&*nodes, at, rest, &Binds::More(x, first, &*binds)),
    }
}
