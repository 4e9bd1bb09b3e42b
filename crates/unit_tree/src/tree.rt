ghost use Rattle.std.specs.Prelude.{◌≡◌, ◌↔◌, ◌⊎◌, ℕ, ◌<◌, ◌∷◌, List, length, map, slice_get, Some, IsTrue, IfOk, OnOk};
ghost use Rattle.fo_terms.specs.declared.literal.Literal.{Literal};
ghost use Rattle.fo_terms.specs.declared.term.FoTerm.{FoTerm};
ghost use Rattle.fo_cells.specs.Cells.{joined, cells_of};
ghost use Rattle.unit_tree.specs.declared.token.Token.{Token};
ghost use Rattle.unit_tree.specs.declared.token.Token.TheVariants.{Head};
ghost use Rattle.unit_tree.specs.Tree.{IsTree, Holds, SubsumesOne};
ghost use Rattle.unit_tree.specs.inner.Following.{GoesOn, Matches};

use crate::following::goes_on;
use crate::growing::put_word;
use crate::token::{Edge, Token, edges_of, same_token};
use fo_cells::{Binds, Cell, FlatClause};
use std::alloc::Global;
use std::marker::Model;
use text_kit::{NoMemory, Rows};

/// A tree of the literals of unit clauses, by which it is told whether one of them subsumes a clause. Two literals share the way as long
/// as they have the same symbols and variables in reading order (discrimination trees: McCune 1992, Christian 1993).
///
/// A test goes through each node at most once for each literal of the clause. At a variable's first place the subterm there is what it
/// stands for, and is skipped; at a later place the two are compared.
#[derive(Debug, Drop)]
pub struct UnitTree {
    nodes: Vec<Rows<Edge>>,
}

impl Model for UnitTree {
    ghost use Rattle.std.specs.Prelude.{List};
    ghost use Rattle.std.specs.Coded.{coded_list};
    ghost use Rattle.unit_tree.specs.contracts.token.Edge as edge;
    ghost use Rattle.unit_tree.specs.declared.token.Edge.{Edge};

    ghost Value = { List (List Edge) };

    ghost coded = { coded_list (coded_list edge.the_row.coded) };

    ghost use Rattle.unit_tree.specs.Tree.{IsTree};

    ghost view = { λ it. it.nodes.items };

    ghost invariant = { λ it. IsTree it.nodes.items };
}

impl UnitTree {
    /// A tree of no literals.
    pub fn begin(alloc: Global) -> Result<UnitTree, NoMemory>
        ensures { IfOk result (λ tree. (l : Literal) → Holds tree l → ⊥) }
    {
        let mut nodes = Vec::new(alloc);
        if nodes.push(Rows::begin(alloc)).is_err() {
            return Err(NoMemory);
        }
        Ok(UnitTree { nodes })
    }

    /// Puts in the literal of a clause of one literal. After want of memory the tree holds what it held, and maybe that literal.
    pub fn insert(&mut self, unit: &FlatClause) -> Result<(), NoMemory>
        requires { length unit.now ≡ 1 }
        ensures keeps { (m : Literal) → Holds self.old m → Holds self.new m }
        ensures adds { (l m : Literal) → slice_get unit.now 0 ≡ Some l → Holds self.new m → Holds self.old m ⊎ (m ≡ l) }
        ensures ok { (l : Literal) → slice_get unit.now 0 ≡ Some l → OnOk result (Holds self.new l) }
    {
        put_word(
            &mut self.nodes,
            unit.is_positive(0),
            unit.is_equation(0),
            unit.atom(0),
        )
    }

    /// Whether a literal of the tree, its variables put right, is one of the clause's. It takes no memory.
    pub fn subsumes(&self, c: &FlatClause) -> bool
        ensures { IsTrue result ↔ SubsumesOne self.now c.now }
    {
        for i in 0..c.len() {
            if is_reached(
                self.nodes.as_slice(),
                c.is_positive(i),
                c.is_equation(i),
                c.atom(i),
            ) {
                return true;
            }
        }
        false
    }
}

/// Whether the way of some literal of this sign and kind is that of the cells.
fn is_reached(nodes: &[Rows<Edge>], positive: bool, equation: bool, cells: &[Cell]) -> bool
    requires tree { IsTree nodes.now }
    requires row { (ts : List FoTerm) × (joined (map cells_of ts) ≡ cells.now) }
    ensures { (ts : List FoTerm) → joined (map cells_of ts) ≡ cells.now → IsTrue result ↔ ((word : List Token) × GoesOn nodes.now 0 (Head positive equation ∷ word) × ((v : ℕ → FoTerm) × Matches v word ts)) }
{
    let head = Token::Head { positive, equation };
    for edge in edges_of(nodes, 0) {
        if leads_on(nodes, edge, &head, cells) {
            return true;
        }
    }
    false
}

/// Whether the edge says this token, and a way behind it is that of the cells.
fn leads_on(nodes: &[Rows<Edge>], edge: &Edge, token: &Token, cells: &[Cell]) -> bool
    requires tree { IsTree nodes.now }
    requires within { edge.now.to < length nodes.now }
    requires row { (ts : List FoTerm) × (joined (map cells_of ts) ≡ cells.now) }
    ensures { (ts : List FoTerm) → joined (map cells_of ts) ≡ cells.now → IsTrue result ↔ ((edge.now.token ≡ token.now) × ((word : List Token) × GoesOn nodes.now edge.now.to word × ((v : ℕ → FoTerm) × Matches v word ts))) }
{
    if !same_token(&edge.token, token) {
        return false;
    }
    goes_on(nodes, edge.to, cells, &Binds::Nothing)
}
