ghost use Rattle.std.specs.Prelude.{◌≡◌, [], IsTrue, IfOk, OnOk, OnErr};
ghost use Rattle.hol_terms.specs.Formulas.{aux_free, var_free};
ghost use Rattle.hol_terms.specs.Substitution.{is_closed};
ghost use Rattle.hol_terms.specs.declared.term.Term.{Term};
ghost use Rattle.lambda_lift.specs.Keys.{key as key_as};
ghost use Rattle.lambda_lift.specs.Tables.{place, with_entry};
ghost use Rattle.lambda_lift.specs.inner.Places.{Numbers, IsNew};

use crate::keys::key_of;
use hol_terms::{Term, Ty, copy, copy_ty};
use indexmap::IndexSet;
use std::alloc::Global;
use std::marker::Model;
use text_kit::{NoMemory, Rows};

/// A closed term that an auxiliary constant stands for, and its type.
#[derive(Debug, Drop)]
pub struct Aux {
    pub ty: Ty,
    pub closed: Term,
}

/// The closed terms that auxiliary constants stand for, each once: the constant of number k is the one at place k.
///
/// Contracts see the list. A term is found by its key, whatever the size of the table.
#[derive(Drop)]
pub struct Table {
    keys: IndexSet<Vec<u64>>,
    entries: Rows<Aux>,
}

impl Model for Table {
    ghost use Rattle.std.specs.Prelude.{◌≡◌, List, map};
    ghost use Rattle.std.specs.Coded.{coded_list};
    ghost use Rattle.lambda_lift.specs.contracts.table.Aux as aux;
    ghost use Rattle.lambda_lift.specs.declared.table.Aux.{Aux};
    ghost use Rattle.lambda_lift.specs.Tables.{closed_terms};
    ghost use Rattle.lambda_lift.specs.Keys.{key};

    ghost Value = { List Aux };

    ghost coded = { coded_list aux.the_row.coded };

    ghost view = { λ t. t.entries };

    ghost invariant = { λ t. map (λ k. k.items) t.keys.keys ≡ map key (closed_terms t.entries) };
}

impl Table {
    /// The empty table. It takes no memory.
    pub fn begin(alloc: Global) -> Table
        ensures { result ≡ [] }
    {
        Table {
            keys: IndexSet::new(alloc),
            entries: Rows::begin(alloc),
        }
    }

    /// Lends the list.
    pub fn entries(&self) -> &Rows<Aux>
        ensures { result.now ≡ self.now }
    {
        &self.entries
    }

    /// The number of the term with this key, where it is there.
    fn number_of(&self, key: &Vec<u64>) -> Option<u64>
        ensures { (t : Term) → key.now.items ≡ key_as t → Numbers self.now t result }
    {
        match self.keys.get_index_of(key) {
            Some(at) => Some(at as u64),
            None => None,
        }
    }

    /// Appends an entry with its key, which isn't there yet.
    fn append(&mut self, key: Vec<u64>, entry: Aux) -> Result<u64, NoMemory>
        requires key { key.items ≡ key_as entry.closed }
        requires new { IsNew self.old entry.closed }
        ensures number { IfOk result (λ k. k ≡ place self.old entry.closed) }
        ensures table { OnOk result (self.new ≡ with_entry self.old entry.ty entry.closed) }
        ensures err { OnErr result (self.new ≡ self.old) }
    {
        let number = self.entries.len();
        self.entries.push(entry)?;
        match self.keys.insert(key) {
            Ok(_) => Ok(number as u64),
            Err(_) => {
                let _ = self.entries.pop();
                Err(NoMemory)
            }
        }
    }

    /// The number of a closed term: that of the first equal one, or the next, and then the term is appended.
    ///
    /// A refused call leaves the table as it was.
    pub fn add(&mut self, ty: &Ty, closed: &Term) -> Result<u64, NoMemory>
        requires no_aux { IsTrue (aux_free closed.now) }
        requires no_loose { IsTrue (is_closed closed.now) }
        requires no_free { IsTrue (var_free closed.now) }
        ensures number { IfOk result (λ k. k ≡ place self.old closed.now) }
        ensures table { OnOk result (self.new ≡ with_entry self.old ty.now closed.now) }
        ensures err { OnErr result (self.new ≡ self.old) }
    {
        self.put(ty, closed)
    }

    /// `add`, for any term.
    pub fn put(&mut self, ty: &Ty, closed: &Term) -> Result<u64, NoMemory>
        ensures number { IfOk result (λ k. k ≡ place self.old closed.now) }
        ensures table { OnOk result (self.new ≡ with_entry self.old ty.now closed.now) }
        ensures err { OnErr result (self.new ≡ self.old) }
    {
        let key = key_of(self.entries.allocator(), closed)?;
        match self.number_of(&key) {
            Some(k) => Ok(k),
            None => {
                let entry = entry_of(ty, closed)?;
                self.append(key, entry)
            }
        }
    }
}

fn entry_of(ty: &Ty, closed: &Term) -> Result<Aux, NoMemory>
    ensures { IfOk result (λ e. e ≡ record { ty = ty.now; closed = closed.now }) }
{
    Ok(Aux {
        ty: copy_ty(ty)?,
        closed: copy(closed)?,
    })
}
