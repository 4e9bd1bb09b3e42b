ghost use Rattle.std.specs.Prelude.{◌≡◌, [], map, IfOk, OnOk};
ghost use Rattle.indexmap.specs.IndexSet.{insert_key};
ghost use Rattle.hol_terms.specs.Types.{bool_ty};
ghost use Rattle.fol_encode.specs.declared.sign.Sign.{Sign};
ghost use Rattle.fol_encode.specs.Signs.{sign_key, is_sign, once, number_of, symbols_of};
ghost use Rattle.fol_encode.specs.Occurring.{signs_for};
ghost use Rattle.tagged_terms.specs.Readings.{signs_of as meanings};
ghost use Rattle.tagged_terms.specs.Terms.{term_at};

use crate::gathered::Gathered;
use crate::occurring::{gather_all, truth_values};
use crate::sign::{Sign, copy_sign, key_of_sign, symbol_of};
use fo_terms::FoTerm;
use hol_terms::{Sig, Term};
use lambda_lift::{KeySet, Table};
use std::alloc::Global;
use tagged_terms::{Symbol, decode};
use text_kit::{NoMemory, Rows};

/// The symbols of a search, each a number: its place in both lists.
///
/// Numbers ascend in the order of symbols, so a search compares numbers alone. The type keeps that the signs are found by
/// their keys, whatever the number of them.
#[derive(Drop)]
pub struct Signs {
    pub keys: KeySet,
    /// The symbols.
    pub signs: Rows<Sign>,
    /// What each stands for, auxiliary constants for their closed terms.
    pub symbols: Rows<Symbol>,
    pub ghost keyed: { keys ≡ map sign_key signs },
}

/// The number of the sign with this key; the number of signs where there is none.
pub fn number(signs: &Signs, key: &Vec<u64>) -> u64
    ensures { (s : Sign) → key.now.items ≡ sign_key s → result ≡ number_of signs.now.signs s }
{
    match signs.keys.place(key) {
        Some(n) => n,
        None => signs.signs.len() as u64,
    }
}

/// Appends a sign that isn't there yet, and what it stands for.
fn put(
    alloc: Global,
    table: &Table,
    keys: &mut KeySet,
    signs: &mut Rows<Sign>,
    symbols: &mut Rows<Symbol>,
    s: &Sign,
) -> Result<(), NoMemory>
    requires keyed { keys.old ≡ map sign_key signs.old }
    requires meant { symbols.old ≡ symbols_of table.now signs.old }
    ensures signs { OnOk result (signs.new ≡ insert_key is_sign signs.old s.now) }
    ensures keyed { OnOk result (keys.new ≡ map sign_key signs.new) }
    ensures meant { OnOk result (symbols.new ≡ symbols_of table.now signs.new) }
{
    let key = key_of_sign(alloc, s)?;
    match keys.place(&key) {
        Some(_) => Ok(()),
        None => {
            symbols.push(symbol_of(alloc, table, s)?)?;
            signs.push(copy_sign(s)?)?;
            keys.add(key)
        }
    }
}

/// The numbers of signs in their order, and what these stand for.
fn numbered(alloc: Global, table: &Table, gathered: Gathered) -> Result<Signs, NoMemory>
    ensures signs { IfOk result (λ s. s.signs ≡ once [] gathered) }
    ensures symbols { IfOk result (λ s. s.symbols ≡ symbols_of table.now s.signs) }
{
    let mut left = gathered;
    let mut keys = KeySet::begin(alloc);
    let mut signs = Rows::begin(alloc);
    let mut symbols = Rows::begin(alloc);
    while let Some(s) = left.pop() {
        put(alloc, table, &mut keys, &mut signs, &mut symbols, s.get())?;
    }
    Ok(Signs {
        keys,
        signs,
        symbols,
    })
}

/// The symbols that encodings of terms over the signature and the table have, in their order: tags by type, application,
/// the logical constants, the named ones and the auxiliary ones.
///
/// It takes time in proportion to the terms, times the logarithm of the number of different symbols.
pub fn signs_of(
    alloc: Global,
    sig: &Sig,
    table: &Table,
    terms: &Rows<Term>,
) -> Result<Signs, NoMemory>
    ensures signs { IfOk result (λ s. s.signs ≡ signs_for sig.now table.now terms.now) }
    ensures symbols { IfOk result (λ s. s.symbols ≡ symbols_of table.now s.signs) }
{
    let entries = table.entries().as_slice();
    let mut gathered = Gathered::begin(alloc);
    gather_all(&mut gathered, alloc, sig, entries, terms.as_slice())?;
    numbered(alloc, table, gathered)
}

/// The term that a well-tagged term stands for, auxiliary constants expanded.
///
/// Types and closed terms are shared, not copied, so it takes time and room in proportion to the term.
pub fn decode_term(alloc: Global, signs: &Signs, t: &FoTerm) -> Result<Term, NoMemory>
    ensures { IfOk result (λ d. d ≡ term_at (meanings signs.now.symbols) t.now bool_ty) }
{
    decode(alloc, signs.symbols.as_slice(), t, &truth_values())
}
