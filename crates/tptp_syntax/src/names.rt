ghost use Rattle.std.specs.Prelude.{◌≡◌, [], ◌∷◌, length, nat_eq, slice_get, IfOk, OnOk, MatchOption, false, true};
ghost use Rattle.std.specs.List.{list_any};
ghost use Rattle.indexmap.specs.IndexMap.{ContainsKey, Updates};
ghost use Rattle.indexmap.specs.IndexSet.{insert_key};
ghost use Rattle.tptp_syntax.specs.Grammar.{symbol_number, is_bound, bound_number};
ghost use Rattle.tptp_syntax.specs.inner.Machine.{inner};

use indexmap::{IndexMap, IndexSet};
use std::alloc::Global;
use std::marker::Model;
use text_kit::{NoMemory, Rows};

/// The most variables around a place.
const MOST: usize = 5_000;

/// Names that are symbols, in the order in which they came first, which contracts see as their list. One is found by
/// hashing.
#[derive(Drop)]
pub(crate) struct Symbols {
    set: IndexSet<u64>,
}

impl Model for Symbols {
    ghost use Rattle.std.specs.Prelude.{List, ℕ};
    ghost use Rattle.std.specs.Coded.{coded_list, coded_ℕ};

    ghost Value = { List ℕ };

    ghost coded = { coded_list coded_ℕ };

    ghost view = { λ s. s.set.keys };
}

impl Symbols {
    /// No symbols. It takes no memory.
    pub(crate) fn begin(alloc: Global) -> Symbols
        ensures { result ≡ [] }
    {
        Symbols {
            set: IndexSet::new(alloc),
        }
    }

    /// The number of a symbol, which is the next where the symbol is new.
    pub(crate) fn number(&mut self, name: u64) -> Result<u64, NoMemory>
        ensures value { IfOk result (λ n. n ≡ symbol_number name self.old) }
        ensures noted { OnOk result (self.new ≡ insert_key nat_eq self.old name) }
    {
        match self.set.insert_full(name) {
            Ok((at, _)) => Ok(at as u64),
            Err(_) => Err(NoMemory),
        }
    }

    /// The number of symbols.
    pub(crate) fn len(&self) -> u64
        ensures { result ≡ length self.now }
    {
        self.set.len() as u64
    }

    /// The symbol with a number, where there is one.
    pub(crate) fn at(&self, number: u64) -> Option<u64>
        ensures { result ≡ slice_get self.now number }
    {
        match self.set.get_index(number as usize) {
            Some(name) => Some(*name),
            None => None,
        }
    }
}

/// A variable with the number of the binder that it hides, where an outer one has its name.
#[derive(Drop)]
struct Binder {
    name: u64,
    hidden: Option<u64>,
}

/// The variables around a place, of which contracts see the innermost first. One is found by hashing.
#[derive(Drop)]
pub(crate) struct Scope {
    outermost_first: Rows<Binder>,
    numbers: IndexMap<u64, u64>,
}

/// Gives a name that is in the map another number, or none.
fn retell(numbers: &mut IndexMap<u64, u64>, name: u64, number: Option<u64>)
    requires { ContainsKey nat_eq numbers.old name }
    ensures { Updates nat_eq numbers.old numbers.new name number }
{
    match number {
        Some(outer) => {
            let _ = numbers.insert(name, outer);
        }
        None => {
            let _ = numbers.swap_remove(&name);
        }
    }
}

impl Model for Scope {
    ghost use Rattle.std.specs.Prelude.{◌≡◌, List, ℕ, nat_eq, reverse};
    ghost use Rattle.std.specs.Coded.{coded_list, coded_ℕ};
    ghost use Rattle.indexmap.specs.IndexMap.{get};
    ghost use Rattle.tptp_syntax.specs.inner.Binders.{names, innermost, AreNoted};

    ghost Value = { List ℕ };

    ghost coded = { coded_list coded_ℕ };

    ghost view = { λ s. names (reverse s.outermost_first) };

    ghost invariant = { λ s. AreNoted (reverse s.outermost_first) × ((x : ℕ) → get nat_eq s.numbers x ≡ innermost x (names (reverse s.outermost_first))) };
}

impl Scope {
    /// No variables. It takes no memory.
    pub(crate) fn begin(alloc: Global) -> Scope
        ensures { result ≡ [] }
    {
        Scope {
            outermost_first: Rows::begin(alloc),
            numbers: IndexMap::new(alloc),
        }
    }

    /// The number of variables.
    pub(crate) fn len(&self) -> u64
        ensures { result ≡ length self.now }
    {
        self.outermost_first.len() as u64
    }

    /// The number of a variable, where it is bound.
    pub(crate) fn number(&self, name: u64) -> Option<u64>
        ensures { MatchOption result (is_bound name self.now ≡ false) (λ n. (is_bound name self.now ≡ true) × (n ≡ bound_number name self.now)) }
    {
        self.numbers.get(&name).copied()
    }

    /// Binds a variable within the others. Above 5,000 of them the answer is want of memory, as for the formula that binds them.
    pub(crate) fn enter(&mut self, name: u64) -> Result<(), NoMemory>
        ensures { OnOk result (self.new ≡ name ∷ self.old) }
    {
        let around = self.outermost_first.len();
        if around >= MOST {
            return Err(NoMemory);
        }
        let hidden = self.numbers.get(&name).copied();
        self.outermost_first.push(Binder { name, hidden })?;
        match self.numbers.insert(name, around as u64) {
            Ok(_) => Ok(()),
            Err(_) => {
                let _ = self.outermost_first.pop();
                Err(NoMemory)
            }
        }
    }

    /// Leaves the innermost variable, and answers the number of those around it.
    pub(crate) fn leave(&mut self) -> u64
        ensures left { self.new ≡ inner self.old }
        ensures value { result ≡ length (inner self.old) }
    {
        if let Some(left) = self.outermost_first.pop() {
            retell(&mut self.numbers, left.name, left.hidden);
        }
        self.outermost_first.len() as u64
    }
}
