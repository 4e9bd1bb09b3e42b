ghost use Rattle.std.specs.Prelude.{◌≡◌, ℕ, ◌<◌, ◌⊎◌, List, [], ◌∷◌, ◌++◌, length, map, IfOk, IfSome, OnOk, OnErr, Contains};
ghost use Rattle.fo_cells.specs.declared.cell.Cell.{Cell};
ghost use Rattle.unit_tree.specs.declared.token.Token.{Token};
ghost use Rattle.unit_tree.specs.declared.token.Token.TheVariants.{Head, End};
ghost use Rattle.unit_tree.specs.Tree.{token_of, Leads, Reached, IsTree, onto};
ghost use Rattle.unit_tree.specs.inner.Growth.{Grows, GrowsBy, grown};

use crate::token::{Edge, Token, cell_token, edges_of, same_token};
use fo_cells::Cell;
use text_kit::{NoMemory, Rows};

/// The node to which the first edge of that token leads.
fn find(edges: &[Edge], token: &Token) -> Option<usize>
    ensures { IfSome result (λ to. Contains edges.now (record { token = token.now; to = to })) }
{
    for edge in edges {
        if same_token(&edge.token, token) {
            return Some(edge.to);
        }
    }
    None
}

/// Adds a node. For want of memory the nodes stay as they were.
fn add_node(nodes: &mut Vec<Rows<Edge>>) -> Result<(), NoMemory>
    ensures ok { OnOk result (nodes.new.items ≡ nodes.old.items ++ [] ∷ []) }
    ensures err { OnErr result (nodes.new.items ≡ nodes.old.items) }
{
    let edges = Rows::begin(*nodes.allocator());
    match nodes.push(edges) {
        Ok(()) => Ok(()),
        Err(_) => Err(NoMemory),
    }
}

/// Adds a node, and an edge that leads to it. For want of memory the nodes stay as they were.
fn add(nodes: &mut Vec<Rows<Edge>>, at: usize, token: Token) -> Result<usize, NoMemory>
    requires { at < length nodes.old.items }
    ensures ok { IfOk result (λ to. (to ≡ length nodes.old.items) × (nodes.new.items ≡ grown nodes.old.items at token)) }
    ensures err { OnErr result (nodes.new.items ≡ nodes.old.items) }
{
    let to = nodes.len();
    add_node(&mut *nodes)?;
    match nodes[at].push(Edge { token, to }) {
        Ok(()) => Ok(to),
        Err(NoMemory) => {
            let _ = nodes.pop();
            Err(NoMemory)
        }
    }
}

/// The node to which the token leads, which is added where there is none.
fn follow(nodes: &mut Vec<Rows<Edge>>, at: usize, token: Token) -> Result<usize, NoMemory>
    requires tree { IsTree nodes.old.items }
    requires within { at < length nodes.old.items }
    ensures ok { IfOk result (λ to. GrowsBy nodes.old.items nodes.new.items at token to) }
    ensures err { OnErr result (nodes.new.items ≡ nodes.old.items) }
{
    if let Some(to) = find(edges_of(nodes.as_slice(), at), &token) {
        return Ok(to);
    }
    add(nodes, at, token)
}

/// Makes a way for the word of a literal.
pub fn put_word(
    nodes: &mut Vec<Rows<Edge>>,
    positive: bool,
    equation: bool,
    cells: &[Cell],
) -> Result<(), NoMemory>
    requires { IsTree nodes.old.items }
    ensures grows { Grows nodes.old.items nodes.new.items (Head positive equation ∷ (map token_of cells.now ++ End ∷ [])) }
    ensures ok { OnOk result ((to : ℕ) × Reached nodes.new.items (onto (Head positive equation ∷ (map token_of cells.now ++ End ∷ [])) []) to) }
{
    let mut at = follow(nodes, 0, Token::Head { positive, equation })?;
    for cell in cells {
        at = follow(nodes, at, cell_token(*cell))?;
    }
    follow(nodes, at, Token::End)?;
    Ok(())
}
