ghost use Rattle.fol_encode.specs.Laws.{EncodedIsRead};
ghost use Rattle.fol_encode.specs.Coverage.{SignsCover};

use hol_terms::{Sig, Term};
use lambda_lift::Table;
use text_kit::Rows;

/// The encoding of a term is tagged with the term's type, and is read as the term with its auxiliary constants expanded.
/// It does nothing: its contract is the law.
pub fn encoded_is_read(sig: &Sig, table: &Table, t: &Term)
    ensures { EncodedIsRead sig.now table.now t.now }
{}

/// The signs that are made for terms cover each of them. It does nothing: its contract is the law.
pub fn signs_cover(sig: &Sig, table: &Table, terms: &Rows<Term>)
    ensures { SignsCover sig.now table.now terms.now }
{}
