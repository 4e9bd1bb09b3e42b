ghost use Rattle.std.specs.Prelude.{◌≡◌};
ghost use Rattle.theory_terms.specs.Answers.{Tells};
ghost use Rattle.theory_terms.specs.Words.{word_at as bytes_of, place};
ghost use Rattle.theory_terms.specs.Types.{type_of_tree, named_type};

use crate::decls::Decls;
use crate::{Known, TheoryFault, TheoryKind, word_at};
use hol_terms::{Ty, arrow};
use std::alloc::Global;
use theory_syntax::{TyTree, Word};

fn named(text: &[u8], decls: &Decls, word: Word) -> Result<Ty, TheoryFault>
    ensures { Tells (named_type word.start (place (bytes_of text.now word) decls.now.declared.types)) result }
{
    match decls.base_of(word_at(text, word)) {
        Some(base) => Ok(Ty::Base(base)),
        None => Err(TheoryFault::At {
            at: word.start,
            kind: TheoryKind::Unknown,
        }),
    }
}

/// The type that a tree stands for, over the declarations alone.
pub(crate) fn declared_type(
    alloc: Global,
    text: &[u8],
    decls: &Decls,
    tree: &TyTree,
) -> Result<Ty, TheoryFault>
    ensures { Tells (type_of_tree text.now decls.now.declared tree.now) result }
{
    match tree {
        TyTree::Bool => Ok(Ty::Base(0)),
        TyTree::Named(word) => named(text, decls, *word),
        TyTree::Arrow(a, b) => {
            let from = declared_type(alloc, text, decls, a.get())?;
            let to = declared_type(alloc, text, decls, b.get())?;
            Ok(arrow(alloc, from, to)?)
        }
    }
}

/// The type that a tree stands for. `Unknown` comes at the first name that isn't declared.
pub fn read_type(
    alloc: Global,
    text: &[u8],
    known: &Known,
    tree: &TyTree,
) -> Result<Ty, TheoryFault>
    ensures { Tells (type_of_tree text.now known.now tree.now) result }
{
    declared_type(alloc, text, &known.decls, tree)
}
