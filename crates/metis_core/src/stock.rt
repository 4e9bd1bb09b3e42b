ghost use Rattle.std.specs.Prelude.{◌≡◌, ◌≢◌, true, false, ◌↔◌, ◌<◌, ◌≤◌, ◌++◌, ◌∷◌, [], IsTrue, IfOk, IfSome, OnOk, Some, slice_get, slice_index_or, length};
ghost use Rattle.cover_marks.specs.Marks.{clause_marks};
ghost use Rattle.metis_core.specs.Stock.{clauses, IsReady};
ghost use Rattle.fo_terms.specs.declared.clause.Clause.{Clause};
ghost use Rattle.fo_terms.specs.Weight.{clause_size};
ghost use Rattle.fo_infer.specs.Subsumption.{Subsumes};
ghost use Rattle.metis_core.specs.State.{keeping, IsActive};
ghost use Rattle.metis_core.specs.Offer.{Barred, Offer, most_kept};
ghost use Rattle.metis_core.specs.Held.{state_of, IsSound, Told, AddsLine, Activates};
ghost use Rattle.metis_core.specs.Units.{IsAmong};

use crate::given::{Positions, is_plain};
use crate::known::{Places, is_flat_known, is_known, note};
use crate::raised::{Raised, push_raised, raise, uncopied};
use crate::stop::Stop;
use crate::units::{as_unit, is_unit_subsumed, put_unit};
use crate::waiting::Waiting;
use clause_ring::Entry;
use cover_marks::{ClauseMarks, marks_of_flat, may_subsume};
use flat_subsume::Subsumer;
use fo_cells::{FlatClause, print_of};
use fo_infer::{Line, Origin, subsumes};
use fo_terms::Clause;
use pair_marks::{PairMarks, marks_of};
use std::alloc::Global;
use std::collections::HashMap;
use text_kit::{NoMemory, Rows};
use unit_tree::UnitTree;

/// The most clauses that a search keeps.
pub const MOST_KEPT: usize = 20_000;

/// The most that a kept clause weighs.
pub const HEAVIEST: u64 = 512;

/// The kept clauses with where they come from, and which of them are active and which wait.
#[derive(Drop)]
pub struct Stock {
    pub alloc: Global,
    pub lines: Rows<Line>,
    /// the lines' clauses with their variables raised, by the lines' numbers
    pub raised: Vec<Raised>,
    pub places: Places,
    pub active: Rows<u32>,
    /// what the active clauses need and offer in inferences, in their order
    pub reach: Rows<PairMarks>,
    /// where equations are put in
    pub positions: Positions,
    /// the active clauses of one literal
    pub units: Option<UnitTree>,
    /// the other active clauses
    pub rest: Rows<u32>,
    /// the marks of the literals of these others, in their order
    pub marks: Rows<ClauseMarks>,
    /// these others as cells, in their order, where they can be written so
    pub ready: Rows<Option<Subsumer>>,
    pub waiting: Waiting,
}

/// Holds nothing, for a search that puts equations into these positions.
pub fn empty_stock(alloc: Global, positions: Positions) -> Result<Stock, NoMemory>
    ensures sound { IfOk result IsSound }
    ensures lines { IfOk result (λ stock. stock.lines ≡ []) }
    ensures active { IfOk result (λ stock. stock.active ≡ []) }
    ensures waiting { IfOk result (λ stock. stock.waiting ≡ []) }
    ensures positions { IfOk result (λ stock. stock.positions ≡ positions) }
{
    Ok(Stock {
        alloc,
        lines: Rows::begin(alloc),
        raised: Vec::new(alloc),
        places: HashMap::new(alloc),
        active: Rows::begin(alloc),
        reach: Rows::begin(alloc),
        positions,
        units: None,
        rest: Rows::begin(alloc),
        marks: Rows::begin(alloc),
        ready: Rows::begin(alloc),
        waiting: Waiting::begin(alloc)?,
    })
}

/// What a prepared clause tells, where there is one.
fn tries(ready: &Option<Subsumer>, c: &FlatClause) -> Option<bool>
    ensures { (p : Clause) → IsReady p ready.now → IfSome result (λ b. IsTrue b ↔ Subsumes p (record { literals = c.now })) }
{
    match ready {
        Some(subsumer) => subsumer.tries(c),
        None => None,
    }
}

/// Whether the clause at this place among the rest subsumes the clause, by trees and however long it takes.
fn is_tree_subsumed_at(stock: &Stock, k: usize, c: &FlatClause) -> Result<bool, NoMemory>
    requires sound { IsSound stock.now }
    requires place { k < length stock.now.rest }
    ensures { IfOk result (λ b. (p : Clause) → slice_get (clauses stock.now.lines) (slice_index_or stock.now.rest k 0) ≡ Some p → IsTrue b ↔ Subsumes p (record { literals = c.now })) }
{
    let n = *stock.rest.at(k);
    let tree = c.to_clause(stock.alloc)?;
    let made = subsumes(stock.alloc, &stock.lines.at(n as usize).clause, &tree)?;
    Ok(made)
}

/// Whether the clause at this place among the rest, whose marks are looked at first, subsumes the clause with these marks.
fn is_subsumed_at(
    stock: &Stock,
    k: usize,
    c: &FlatClause,
    marks: &ClauseMarks,
) -> Result<bool, NoMemory>
    requires sound { IsSound stock.now }
    requires place { k < length stock.now.rest }
    requires marks { marks.now ≡ clause_marks (record { literals = c.now }) }
    ensures { IfOk result (λ b. (p : Clause) → slice_get (clauses stock.now.lines) (slice_index_or stock.now.rest k 0) ≡ Some p → IsTrue b ↔ Subsumes p (record { literals = c.now })) }
{
    if !may_subsume(stock.marks.at(k), marks) {
        return Ok(false);
    }
    match tries(stock.ready.at(k), c) {
        Some(told) => Ok(told),
        None => is_tree_subsumed_at(stock, k, c),
    }
}

/// Whether one of the rest of the active clauses subsumes the clause.
fn is_subsumed(stock: &Stock, c: &FlatClause) -> Result<bool, NoMemory>
    requires { IsSound stock.now }
    ensures { IfOk result (λ b. IsTrue b ↔ ((p : Clause) × IsAmong stock.now.rest stock.now.lines p × Subsumes p (record { literals = c.now }))) }
{
    let marks = marks_of_flat(stock.alloc, c)?;
    for k in 0..stock.rest.len() {
        if is_subsumed_at(stock, k, c, &marks)? {
            return Ok(true);
        }
    }
    Ok(false)
}

/// Whether a clause is kept out while no clause is active.
fn is_barred(stock: &Stock, c: &Clause) -> bool
    requires sound { IsSound stock.now }
    requires idle { stock.now.active ≡ [] }
    ensures { IsTrue result ↔ Barred (state_of stock.now) c.now }
{
    if c.weight() > HEAVIEST {
        return true;
    }
    if c.is_tautology() {
        return true;
    }
    is_known(&stock.places, stock.lines.as_slice(), c)
}

fn keep(stock: &mut Stock, clause: Clause, origin: Origin) -> Result<(), NoMemory>
    requires sound { IsSound stock.old }
    requires room { length stock.old.lines < most_kept }
    requires light { clause_size clause ≤ 512 }
    ensures sound { OnOk result (IsSound stock.new) }
    ensures lines { OnOk result (stock.new.lines ≡ stock.old.lines ++ record { clause = clause; origin = origin } ∷ []) }
    ensures active { OnOk result (stock.new.active ≡ stock.old.active) }
    ensures positions { OnOk result (stock.new.positions ≡ stock.old.positions) }
    ensures state { OnOk result (state_of stock.new ≡ keeping (state_of stock.old) clause) }
{
    let number = stock.lines.len() as u32;
    let weight = clause.weight() as u32;
    let raised = uncopied(stock.alloc, &clause)?;
    note(&mut stock.places, stock.alloc, print_of(&clause), number)?;
    stock.waiting.push(Entry { weight, number })?;
    stock.lines.push(Line { clause, origin })?;
    push_raised(&mut stock.raised, raised)?;
    Ok(())
}

/// Offers a clause in normal form while no clause is active.
pub fn offer(stock: &mut Stock, clause: Clause, origin: Origin) -> Result<(), Stop>
    requires sound { IsSound stock.old }
    requires idle { stock.old.active ≡ [] }
    ensures sound { OnOk result (IsSound stock.new) }
    ensures active { OnOk result (stock.new.active ≡ stock.old.active) }
    ensures positions { OnOk result (stock.new.positions ≡ stock.old.positions) }
    ensures offered { Told result (state_of stock.new) (Offer (state_of stock.old) clause) }
    ensures line { AddsLine result stock.old.lines stock.new.lines (record { clause = clause; origin = origin }) }
{
    if clause.literals.len() == 0 {
        return Err(Stop::Found(Line { clause, origin }));
    }
    if is_barred(&*stock, &clause) {
        return Ok(());
    }
    if stock.lines.len() >= MOST_KEPT {
        return Err(Stop::Full);
    }
    keep(stock, clause, origin)?;
    Ok(())
}

/// Whether a clause is soon kept out: it is too heavy, or a tautology, or kept already. Then only an active clause
/// that subsumes it can keep it out.
fn is_soon_barred(stock: &Stock, c: &FlatClause) -> bool
    requires { IsSound stock.now }
    ensures barred { result ≡ true → Barred (state_of stock.now) (record { literals = c.now }) }
    ensures light { result ≡ false → clause_size (record { literals = c.now }) ≤ 512 }
    ensures left { result ≡ false → Barred (state_of stock.now) (record { literals = c.now }) → ((p : Clause) × IsActive (state_of stock.now) p × Subsumes p (record { literals = c.now })) }
{
    if c.weight() > HEAVIEST {
        return true;
    }
    if c.is_tautology() {
        return true;
    }
    if is_flat_known(&stock.places, stock.lines.as_slice(), c) {
        return true;
    }
    false
}

/// Offers a clause in normal form whose literals stand as cells.
pub fn offer_flat(stock: &mut Stock, flat: &FlatClause, origin: Origin) -> Result<(), Stop>
    requires { IsSound stock.old }
    ensures sound { OnOk result (IsSound stock.new) }
    ensures active { OnOk result (stock.new.active ≡ stock.old.active) }
    ensures positions { OnOk result (stock.new.positions ≡ stock.old.positions) }
    ensures offered { Told result (state_of stock.new) (Offer (state_of stock.old) (record { literals = flat.now })) }
    ensures line { AddsLine result stock.old.lines stock.new.lines (record { clause = record { literals = flat.now }; origin = origin }) }
{
    if flat.len() == 0 {
        let clause = flat.to_clause(stock.alloc)?;
        return Err(Stop::Found(Line { clause, origin }));
    }
    if is_soon_barred(&*stock, flat) {
        return Ok(());
    }
    if is_unit_subsumed(&stock.units, flat) {
        return Ok(());
    }
    if is_subsumed(&*stock, flat)? {
        return Ok(());
    }
    if stock.lines.len() >= MOST_KEPT {
        return Err(Stop::Full);
    }
    let clause = flat.to_clause(stock.alloc)?;
    keep(stock, clause, origin)?;
    Ok(())
}

/// Puts a kept clause among the active ones, with its marks: into the tree where it is one literal, or among the rest.
fn put_active(stock: &mut Stock, number: u32) -> Result<(), NoMemory>
    requires sound { IsSound stock.old }
    requires within { number < length stock.old.lines }
    ensures sound { OnOk result (IsSound stock.new) }
    ensures active { OnOk result (stock.new.active ≡ stock.old.active ++ number ∷ []) }
    ensures lines { OnOk result (stock.new.lines ≡ stock.old.lines) }
    ensures waiting { OnOk result (stock.new.waiting ≡ stock.old.waiting) }
    ensures positions { OnOk result (stock.new.positions ≡ stock.old.positions) }
{
    stock.active.push(number)?;
    let clause = &stock.lines.at(number as usize).clause;
    let reach = marks_of(stock.alloc, is_plain(stock.positions), clause)?;
    stock.reach.push(reach)?;
    match as_unit(clause, stock.alloc)? {
        Some(unit) => {
            put_unit(&mut stock.units, stock.alloc, &unit)?;
            Ok(())
        }
        None => {
            let marks = cover_marks::marks_of(stock.alloc, clause)?;
            let ready = Subsumer::of(stock.alloc, clause)?;
            stock.marks.push(marks)?;
            stock.ready.push(ready)?;
            stock.rest.push(number)?;
            Ok(())
        }
    }
}

/// Sees to it that the right premise's literals stand with their variables raised above the left one's, where these are few.
pub fn raise_right(stock: &mut Stock, left: u32, right: u32) -> Result<(), NoMemory>
    requires sound { IsSound stock.old }
    requires left { left < length stock.old.lines }
    requires right { right < length stock.old.lines }
    ensures sound { OnOk result (IsSound stock.new) }
    ensures lines { OnOk result (stock.new.lines ≡ stock.old.lines) }
    ensures active { OnOk result (stock.new.active ≡ stock.old.active) }
    ensures waiting { OnOk result (stock.new.waiting ≡ stock.old.waiting) }
    ensures positions { OnOk result (stock.new.positions ≡ stock.old.positions) }
{
    let by = stock.raised[left as usize].above;
    let clause = &stock.lines.at(right as usize).clause;
    raise(&mut stock.raised[right as usize], stock.alloc, by, clause)?;
    Ok(())
}

/// Makes a waiting clause active, the oldest or else the lightest one, and answers its number.
pub fn activate(stock: &mut Stock, oldest: bool) -> Result<u32, NoMemory>
    requires sound { IsSound stock.old }
    requires waits { stock.old.waiting ≢ [] }
    ensures { IfOk result (Activates oldest stock.old stock.new) }
{
    match stock.waiting.pick(oldest) {
        Some(entry) => {
            put_active(stock, entry.number)?;
            Ok(entry.number)
        }
        None => unreachable!(),
    }
}
