ghost use Rattle.std.specs.Prelude.{◌≡◌, ◌<◌, ◌≤◌, ◌∷◌, ◌≢◌, [], List, map, IfOk, OnOk, Some, slice_get, length, take};
ghost use Rattle.fo_infer.specs.declared.made.Made.{Made};
ghost use Rattle.fo_infer.specs.Inferences.{BetweenAt, renamed_apart};
ghost use Rattle.fo_light.specs.Light.{as_made, light};
ghost use Rattle.metis_core.specs.Offer.{Offer, Through};
ghost use Rattle.metis_core.specs.Search.{position_of, Infers, Inferred, Pick, normal_forms, pairs};
ghost use Rattle.metis_core.specs.declared.premises.Premises.{Premises};
ghost use Rattle.metis_core.specs.Held.{state_of, IsRunning, IsSound, Told, Ends, ArePremises, origin_of};

use crate::given::{Given, Positions};
use crate::premises::Premises;
use crate::raised::copy_of;
use crate::stock::{Stock, activate, offer, offer_flat, raise_right};
use crate::stop::Stop;
use fo_infer::{Origin, Rule, renamed};
use fo_light::{FlatMade, alone_light, between_light};
use fo_terms::{Clause, Literal};
use pair_marks::may_infer;
use std::alloc::Global;
use text_kit::{NoMemory, Rows};

fn between_at(
    alloc: Global,
    positions: Positions,
    p: &Clause,
    q: &Clause,
    apart: &Rows<Literal>,
) -> Result<Rows<FlatMade>, NoMemory>
    requires { apart.now ≡ renamed_apart p.now q.now }
    ensures { IfOk result (λ made. (all : List Made) × BetweenAt (position_of positions) p.now q.now all × (map as_made made ≡ light all)) }
{
    match positions {
        Positions::Tagged => Ok(between_light(alloc, false, p, q, apart)?),
        Positions::Plain => Ok(between_light(alloc, true, p, q, apart)?),
    }
}

fn inferences(
    positions: Positions,
    stock: &Stock,
    premises: Premises,
) -> Result<Rows<FlatMade>, NoMemory>
    requires sound { IsSound stock.now }
    requires within { ArePremises (length stock.now.lines) premises }
    ensures { IfOk result (λ made. (all : List Made) × Infers positions (state_of stock.now) premises all × (map as_made made ≡ light all)) }
{
    match premises {
        Premises::One(n) => Ok(alone_light(stock.alloc, &stock.lines.at(n as usize).clause)?),
        Premises::Two(n, m) => {
            let left = &stock.lines.at(n as usize).clause;
            let right = &stock.lines.at(m as usize).clause;
            let by = stock.raised[n as usize].above;
            match copy_of(&stock.raised[m as usize], by) {
                Some(apart) => Ok(between_at(stock.alloc, positions, left, right, apart)?),
                None => {
                    let apart = renamed(stock.alloc, left, right)?;
                    Ok(between_at(stock.alloc, positions, left, right, &apart)?)
                }
            }
        }
    }
}

fn origin(premises: Premises, rule: Rule) -> Origin
    ensures { result ≡ origin_of premises rule }
{
    match premises {
        Premises::One(n) => Origin::Alone {
            of: u64::from(n),
            rule,
        },
        Premises::Two(n, m) => Origin::Pair {
            left: u64::from(n),
            right: u64::from(m),
            rule,
        },
    }
}

/// Offers all inferences of these premises.
fn infer(given: &Given, stock: &mut Stock, premises: Premises) -> Result<(), Stop>
    requires running { IsRunning given.now stock.old }
    requires within { ArePremises (length stock.old.lines) premises }
    ensures running { OnOk result (IsRunning given.now stock.new) }
    ensures active { OnOk result (stock.new.active ≡ stock.old.active) }
    ensures grows { OnOk result (length stock.old.lines ≤ length stock.new.lines) }
    ensures inferred { Told result (state_of stock.new) (Inferred given.now.positions (state_of stock.old) premises) }
    ensures ends { Ends given.now result stock.new.lines }
{
    let made = inferences(given.positions, &*stock, premises)?;
    for m in made.into_vec() {
        let FlatMade { clause, rule } = m;
        offer_flat(stock, &clause, origin(premises, rule))?;
    }
    Ok(())
}

/// An active clause: its place among the active ones, and its number.
#[derive(Clone, Copy)]
struct Active {
    place: usize,
    number: u32,
}

/// Offers all inferences of two active clauses, which are looked for only where their marks don't rule them out.
fn infer_pair(given: &Given, stock: &mut Stock, left: Active, right: Active) -> Result<(), Stop>
    requires running { IsRunning given.now stock.old }
    requires left { slice_get stock.old.active left.place ≡ Some left.number }
    requires right { slice_get stock.old.active right.place ≡ Some right.number }
    ensures running { OnOk result (IsRunning given.now stock.new) }
    ensures active { OnOk result (stock.new.active ≡ stock.old.active) }
    ensures grows { OnOk result (length stock.old.lines ≤ length stock.new.lines) }
    ensures inferred { Told result (state_of stock.new) (Inferred given.now.positions (state_of stock.old) (Premises.Two left.number right.number)) }
    ensures ends { Ends given.now result stock.new.lines }
{
    if !may_infer(stock.reach.at(left.place), stock.reach.at(right.place)) {
        return Ok(());
    }
    raise_right(stock, left.number, right.number)?;
    infer(given, stock, Premises::Two(left.number, right.number))
}

/// Offers the inferences of the given clause: alone, and then with each active clause, itself the last.
fn infer_all(given: &Given, stock: &mut Stock, g: u32, earlier: usize) -> Result<(), Stop>
    requires running { IsRunning given.now stock.old }
    requires kept { g < length stock.old.lines }
    requires within { earlier ≤ length stock.old.active }
    requires last { slice_get stock.old.active earlier ≡ Some g }
    ensures running { OnOk result (IsRunning given.now stock.new) }
    ensures inferred { Told result (state_of stock.new) (Through (Inferred given.now.positions) (state_of stock.old) (Premises.One g ∷ pairs g (take earlier stock.old.active))) }
    ensures ends { Ends given.now result stock.new.lines }
{
    infer(given, stock, Premises::One(g))?;
    let last = Active {
        place: earlier,
        number: g,
    };
    for i in 0..earlier {
        let a = *stock.active.at(i);
        let other = Active {
            place: i,
            number: a,
        };
        infer_pair(given, stock, other, last)?;
        infer_pair(given, stock, last, other)?;
    }
    infer_pair(given, stock, last, last)?;
    Ok(())
}

/// Makes the pick of this number: a waiting clause becomes active, and all its inferences are offered.
pub fn pick(given: &Given, stock: &mut Stock, number: u32) -> Result<(), Stop>
    requires running { IsRunning given.now stock.old }
    requires waits { stock.old.waiting ≢ [] }
    requires age { 1 ≤ given.now.age }
    ensures running { OnOk result (IsRunning given.now stock.new) }
    ensures picked { Told result (state_of stock.new) (Pick given.now number (state_of stock.old)) }
    ensures ends { Ends given.now result stock.new.lines }
{
    let earlier = stock.active.len();
    let g = activate(stock, number % given.age == 0)?;
    infer_all(given, stock, g, earlier)?;
    Ok(())
}

/// Offers the inputs in order.
pub fn offer_inputs(given: &Given, stock: &mut Stock) -> Result<(), Stop>
    requires sound { IsSound stock.old }
    requires lines { stock.old.lines ≡ [] }
    requires positions { stock.old.positions ≡ given.now.positions }
    requires idle { stock.old.active ≡ [] }
    ensures running { OnOk result (IsRunning given.now stock.new) }
    ensures offered { Told result (state_of stock.new) (Through Offer (state_of stock.old) (normal_forms given.now.inputs)) }
    ensures ends { Ends given.now result stock.new.lines }
{
    for i in 0..given.inputs.len() {
        let clause = given.inputs.at(i).copy(stock.alloc)?.normal(stock.alloc)?;
        offer(stock, clause, Origin::Input { number: i as u64 })?;
    }
    Ok(())
}
