use crate::{Quant, Word};
use text_kit::{Rows, Shared};

/// The signs that join two formulas.
#[derive(Clone, Copy, Debug, Drop)]
pub enum Op {
    /// `==>`
    Imp,
    /// `|`
    Or,
    /// `&`
    And,
}

/// A type as it is written, without its brackets.
#[derive(Drop)]
pub enum TyTree {
    Bool,
    Named(Word),
    Arrow(Shared<TyTree>, Shared<TyTree>),
}

/// A term as it is written, with its brackets. A number is the first byte of the sign that it stands beside.
#[derive(Drop)]
pub enum Tree {
    Name(Word),
    Truth(bool, u64),
    /// A term in brackets.
    Round(u64, Shared<Tree>),
    /// A head and its arguments, of which there is one at least where a theory is read.
    Apply(Shared<Tree>, Rows<Tree>),
    Equals(Shared<Tree>, Shared<Tree>),
    Not(u64, Shared<Tree>),
    Join(Op, Shared<Tree>, Shared<Tree>),
    Bind(Quant, u64, Word, TyTree, Shared<Tree>),
}

/// An assumption of a goal.
#[derive(Drop)]
pub struct Hyp {
    pub name: Word,
    pub tree: Tree,
}

/// A declaration.
#[derive(Drop)]
pub enum Item {
    Type(Word),
    Const(Word, TyTree),
    Fact(Word, Tree),
    Goal(Word, Tree, Rows<Hyp>),
}
