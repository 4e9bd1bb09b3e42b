ghost use Rattle.std.specs.Prelude.{◌≡◌, ◌≢◌, ◌+◌, ◌<◌, ◌≤◌, [], IfOk};
ghost use Rattle.metis_core.specs.inner.Settled.{Settles};
ghost use Rattle.metis_core.specs.Searched.{Stands, IsOpen, IsFound, state};
ghost use Rattle.metis_core.specs.Closed.{Closed};
ghost use Rattle.metis_core.specs.Search.{position_of};
ghost use Rattle.fo_infer.specs.Lines.{Refutes};
ghost use Rattle.metis_core.specs.declared.given.Positions.{Positions};
ghost use Rattle.metis_core.specs.declared.turn.Turn.{Turn};

use crate::given::{Given, Positions};
use crate::inferring::{offer_inputs, pick};
use crate::stock::{Stock, empty_stock};
use crate::stop::Stop;
use crate::turn::Turn;
use fo_infer::{Line, Refutation};
use fo_terms::Clause;
use std::alloc::Global;
use std::marker::Model;
use text_kit::{NoMemory, Rows};

/// A search for a refutation of clauses. It keeps clauses, makes one after another the given clause, and offers what follows of it
/// and of the clauses that were given before.
///
/// (William McCune, OTTER 3.0 Reference Manual and Guide, 1994, the given-clause algorithm.)
#[derive(Drop)]
pub struct Search {
    given: Given,
    stock: Stock,
    picks: u32,
    reached: Turn,
}

impl Model for Search {
    ghost use Rattle.std.specs.Prelude.{ℕ, List, refl};
    ghost use Rattle.std.specs.Coded.{code_by, coded×, coded_list, coded_ℕ};
    ghost use Rattle.fo_infer.specs.declared.refutation.Line.{Line};
    ghost use Rattle.fo_infer.specs.contracts.refutation.Line as line;
    ghost use Rattle.metis_core.specs.declared.given.Given.{Given};
    ghost use Rattle.metis_core.specs.declared.turn.Turn.{Turn};
    ghost use Rattle.clause_ring.specs.declared.entry.Entry.{Entry};
    ghost use Rattle.metis_core.specs.contracts.given.Given as given_type;
    ghost use Rattle.metis_core.specs.contracts.turn.Turn as turn_type;
    ghost use Rattle.clause_ring.specs.contracts.entry.Entry as entry;
    ghost use Rattle.metis_core.specs.Searched.{Searched};

    ghost Value = { Searched };

    ghost coded = { code_by (Given × (ℕ × (List Line × (List ℕ × (List Entry × Turn)))))
        (coded× given_type.the_row.coded (coded× coded_ℕ (coded× (coded_list line.the_row.coded) (coded× (coded_list coded_ℕ) (coded× (coded_list entry.the_row.coded) turn_type.the_row.coded)))))
        (λ s. (s.given, (s.picks, (s.lines, (s.active, (s.waiting, s.reached))))))
        (λ p. record { given = p.0; picks = p.1.0; lines = p.1.1.0; active = p.1.1.1.0; waiting = p.1.1.1.1.0; reached = p.1.1.1.1.1 }) (λ _. refl) };

    ghost use Rattle.metis_core.specs.Inside.{view_of, IsSearch};

    ghost view = { view_of };

    ghost invariant = { IsSearch };
}

fn settle(stock: &mut Stock, told: Result<(), Stop>) -> Turn
    ensures { Settles told stock.old stock.new result }
{
    match told {
        Ok(()) => Turn::More,
        Err(Stop::Found(line)) => match stock.lines.push(line) {
            Ok(()) => Turn::Found,
            Err(_) => Turn::NoMemory,
        },
        Err(Stop::Full) => Turn::Spent,
        Err(Stop::NoMemory) => Turn::NoMemory,
    }
}

fn begin_with(alloc: Global, given: Given) -> Result<Search, NoMemory>
    requires { 1 ≤ given.age }
    ensures given { IfOk result (λ s. s.given ≡ given) }
    ensures picks { IfOk result (λ s. s.picks ≡ 0) }
    ensures stands { IfOk result Stands }
{
    let mut stock = empty_stock(alloc, given.positions)?;
    let told = offer_inputs(&given, &mut stock);
    let reached = settle(&mut stock, told);
    if reached == Turn::NoMemory {
        return Err(NoMemory);
    }
    Ok(Search {
        given,
        stock,
        picks: 0,
        reached,
    })
}

impl Search {
    /// Begins a search of clauses for at most so many picks: every fifth pick takes the oldest clause, and equations are put into
    /// tagged terms.
    pub fn begin(alloc: Global, inputs: Rows<Clause>, budget: u32) -> Result<Search, NoMemory>
        ensures given { IfOk result (λ s. s.given ≡ record { inputs = inputs; budget = budget; age = 5; positions = Positions.Tagged }) }
        ensures picks { IfOk result (λ s. s.picks ≡ 0) }
        ensures stands { IfOk result Stands }
    {
        begin_with(
            alloc,
            Given {
                inputs,
                budget,
                age: 5,
                positions: Positions::Tagged,
            },
        )
    }

    /// Begins a search of clauses without tags: each pick whose number the age divides takes the oldest clause, and equations are put
    /// into all terms.
    pub fn begin_child(
        alloc: Global,
        inputs: Rows<Clause>,
        budget: u32,
        age: u32,
    ) -> Result<Search, NoMemory>
        requires { 1 ≤ age }
        ensures given { IfOk result (λ s. s.given ≡ record { inputs = inputs; budget = budget; age = age; positions = Positions.Plain }) }
        ensures picks { IfOk result (λ s. s.picks ≡ 0) }
        ensures stands { IfOk result Stands }
    {
        begin_with(
            alloc,
            Given {
                inputs,
                budget,
                age,
                positions: Positions::Plain,
            },
        )
    }

    fn close(&mut self)
        ensures given { self.new.given ≡ self.old.given }
        ensures picks { self.new.picks ≡ self.old.picks }
        ensures again { self.old.reached ≢ Turn.More → self.new ≡ self.old }
        ensures open { self.new.reached ≡ Turn.More → IsOpen self.new }
    {
        if !self.reached.is_more() {
            return;
        }
        if self.stock.waiting.is_empty() {
            self.reached = Turn::Saturated;
            return;
        }
        if self.picks >= self.given.budget {
            self.reached = Turn::Spent;
        }
    }

    fn step(&mut self)
        requires open { IsOpen self.old }
        requires more { self.old.reached ≡ Turn.More }
        ensures given { self.new.given ≡ self.old.given }
        ensures picks { self.new.picks ≡ self.old.picks + 1 }
    {
        let _budget = self.given.budget;
        let number = self.picks + 1;
        let told = pick(&self.given, &mut self.stock, number);
        self.reached = settle(&mut self.stock, told);
        self.picks = number;
    }

    /// Makes at most so many picks and answers what the search then came to. `More` comes only where all of them were made and no end is
    /// reached. An end is answered again for good, and so is want of memory, after which nothing else is said of the search.
    pub fn turn(&mut self, picks: u32) -> Turn
        requires { 1 ≤ picks }
        ensures given { self.new.given ≡ self.old.given }
        ensures answer { result ≡ self.new.reached }
        ensures stands { Stands self.new }
        ensures closed { result ≡ Turn.Saturated → Closed self.new.given (state self.new) }
        ensures again { self.old.reached ≢ Turn.More → self.new ≡ self.old }
        ensures open { result ≡ Turn.More → IsOpen self.new }
        ensures more { result ≡ Turn.More → self.new.picks ≡ self.old.picks + picks }
    {
        self.close();
        for _made in 0..picks {
            if !self.reached.is_more() {
                return self.reached;
            }
            self.step();
            self.close();
        }
        self.reached
    }

    /// Lends the clauses kept so far by number, each with its origin; where the search found a refutation, the empty clause stands last.
    /// It takes no memory.
    pub fn kept(&self) -> &Rows<Line>
        ensures { result.now ≡ self.now.lines }
    {
        &self.stock.lines
    }

    /// How many picks were made.
    pub fn picks(&self) -> u32
        ensures { result ≡ self.now.picks }
    {
        self.picks
    }

    /// Hands out the refutation: the kept clauses by number, and behind them the empty clause. It takes no memory.
    pub fn into_refutation(self) -> Refutation
        requires { self.reached ≡ Turn.Found }
        ensures lines { result.lines ≡ self.lines }
        ensures found { IsFound self }
        ensures refutes { Refutes (position_of self.given.positions) self.given.inputs result.lines }
    {
        let Search {
            given: _,
            stock,
            picks: _,
            reached: _,
        } = self;
        let Stock { lines, .. } = stock;
        Refutation { lines }
    }
}
