ghost use Rattle.std.specs.Prelude.{◌≡◌, ◌↔◌, [], length, Some, IsSome, IsTrue};
ghost use Rattle.std.specs.FinSet as set;
ghost use Rattle.hol_terms.specs.Formulas.{IsFormula, is_formula};
ghost use Rattle.hyp_sets.specs.Sets.{all_in};
ghost use Rattle.kernel_rules.specs.Derivations.{derived, leaf, sequent, last_of, Proves};
ghost use Rattle.kernel_rules.specs.Rules.{seq};
ghost use Rattle.kernel_rules.specs.Formulas.{AreOver};
ghost use Rattle.hol_kernel.specs.Logs.{IsThm, thm};
ghost use Rattle.hol_kernel.specs.Growth.{Attempts, Extends, Made, SameFacts};

use crate::append::try_append;
use crate::fault::StepFault;
use crate::work::{allowed, left_after};
use hol_terms::{Env, Term, same};
use hyp_sets::Hyps;
use kernel_rules::{Sequent, Step, ThmId};
use std::alloc::Global;
use std::marker::Model;
use text_kit::{NoMemory, Rows};

/// Steps and their sequents, each of which follows by its step's rule from earlier ones.
///
/// A theorem is a place in the log.
///
/// The log counts the nodes that its rules look at, terms taken as trees and their types counted. A step answers
/// want of memory where they would come to more than 2^28 and 2^16 for each of the first 2^16 steps, or where a term
/// or a type that it is put to is deeper than `hol_terms::DEEPEST`. So parts that a file's steps share many times
/// over can't keep it at work, and no walk goes deeper than the stack. Where sets of hypotheses are united, the nodes
/// of the set with fewer terms count, once for each comparison that a term of it takes in the other on an average.
#[derive(Drop)]
pub struct Log<'e> {
    env: &'e Env,
    steps: Rows<Step>,
    sequents: Rows<Sequent>,
    spent: u64,
    alloc: Global,
}

impl<'e> Model for Log<'e> {
    ghost use Rattle.std.specs.Prelude.{◌≡◌, Some, List, refl};
    ghost use Rattle.std.specs.Coded.{code_by, coded×, coded_list};
    ghost use Rattle.hol_terms.specs.contracts.env.Env as the_env;
    ghost use Rattle.hol_terms.specs.declared.env.Env.{Env};
    ghost use Rattle.kernel_rules.specs.contracts.step.Step as step;
    ghost use Rattle.kernel_rules.specs.declared.step.Step.{Step};
    ghost use Rattle.kernel_rules.specs.contracts.sequent.Sequent as sequent;
    ghost use Rattle.kernel_rules.specs.declared.sequent.Sequent.{Sequent};
    ghost use Rattle.kernel_rules.specs.Derivations.{derived};
    ghost use Rattle.hol_kernel.specs.Logs.{Logged};

    ghost Value = { Logged };

    ghost coded = { code_by (Env × (List Step × List Sequent)) (coded× the_env.the_row.coded (coded× (coded_list step.the_row.coded) (coded_list sequent.the_row.coded))) (λ e. (e.env, (e.steps, e.sequents))) (λ p. record { env = p.0; steps = p.1.0; sequents = p.1.1 }) (λ _. refl) };

    ghost view = { λ l. record { env = l.env.now; steps = l.steps; sequents = l.sequents } };

    ghost invariant = { λ l. derived l.env.now l.steps ≡ Some l.sequents };
}

/// Whether the last sequent is the goal without hypotheses.
#[tactic(none)]
fn ends_in(sequents: &Rows<Sequent>, goal: &Term) -> bool
    ensures { IsTrue result ↔ (last_of sequents.now ≡ Some (seq set.empty goal.now)) }
{
    if sequents.len() == 0 {
        return false;
    }
    is_sequent(sequents.at(sequents.len() - 1), goal)
}

/// Whether the sequent is this conclusion without hypotheses.
#[tactic(none)]
fn is_sequent(q: &Sequent, concl: &Term) -> bool
    ensures { IsTrue result ↔ (q.now ≡ seq set.empty concl.now) }
{
    q.hyps.is_empty() && same(&q.concl, concl)
}

impl<'e> Log<'e> {
    /// The log without steps. It takes no memory.
    pub fn begin(alloc: Global, env: &'e Env) -> Log<'e>
        ensures env { result.env ≡ env.now }
        ensures steps { result.steps ≡ [] }
        ensures sequents { result.sequents ≡ [] }
    {
        Log {
            env,
            steps: Rows::begin(alloc),
            sequents: Rows::begin(alloc),
            spent: 0,
            alloc,
        }
    }

    /// The number of steps. It takes no memory.
    ///
    /// Its clauses say what holds of every log: its sequents are those of its steps, and all that they hold are
    /// formulas over the signature.
    #[tactic(none)]
    pub fn len(&self) -> u64
        ensures count { result ≡ length self.now.steps }
        ensures theorems { result ≡ length self.now.sequents }
        ensures follows { derived self.now.env self.now.steps ≡ Some self.now.sequents }
        ensures formulas { AreOver self.now.env.sig self.now.sequents }
    {
        self.steps.len() as u64
    }

    /// What is derived from. It takes no memory.
    #[tactic(none)]
    pub fn env(&self) -> &'e Env
        ensures { result.now ≡ self.now.env }
    {
        self.env
    }

    /// The allocator that the log was begun with.
    pub fn allocator(&self) -> Global {
        self.alloc
    }

    /// Lends the steps. It takes no memory.
    pub fn steps(&self) -> &Rows<Step>
        ensures { result.now ≡ self.now.steps }
    {
        &self.steps
    }

    /// Lends the conclusion of a theorem. It takes no memory.
    #[tactic(none)]
    pub fn conclusion(&self, a: ThmId) -> &Term
        requires { IsThm self.now a.0 }
        ensures value { result.now ≡ (thm self.now a.0).concl }
        ensures formula { IsFormula self.now.env.sig result.now }
    {
        &self.sequents.at(a.0 as usize).concl
    }

    /// Lends the hypotheses of a theorem. It takes no memory.
    #[tactic(none)]
    pub fn hypotheses(&self, a: ThmId) -> &Hyps
        requires { IsThm self.now a.0 }
        ensures value { result.now ≡ (thm self.now a.0).hyps }
        ensures formulas { IsTrue (all_in (is_formula self.now.env.sig) result.now) }
    {
        &self.sequents.at(a.0 as usize).hyps
    }

    /// Whether the last theorem is the goal without hypotheses, so that the steps prove it. It takes no memory.
    #[tactic(none)]
    pub fn proves(&self) -> bool
        ensures last { IsTrue result ↔ (last_of self.now.sequents ≡ Some (seq set.empty self.now.env.goal)) }
        ensures proof { IsTrue result ↔ Proves self.now.env self.now.steps }
    {
        ends_in(&self.sequents, &self.env.goal)
    }

    /// The steps alone. It takes no memory.
    #[tactic(none)]
    pub fn into_steps(self) -> Rows<Step>
        ensures value { result ≡ self.entry.steps }
        ensures follows { derived self.entry.env result ≡ Some self.entry.sequents }
    {
        let Log {
            env: _,
            steps,
            sequents: _,
            spent: _,
            alloc: _,
        } = self;
        steps
    }

    /// Appends a step and its sequent where it has one. A refused step leaves the log as it was.
    #[tactic(none)]
    pub fn try_step(&mut self, step: Step) -> Result<ThmId, StepFault>
        ensures kept { Extends self.old self.new }
        ensures gives { Attempts self.old self.new step result }
    {
        match self.spent_with(&step) {
            Ok(spent) => {
                self.spent = spent;
                try_append(
                    self.alloc,
                    self.env,
                    &mut self.steps,
                    &mut self.sequents,
                    step,
                )
            }
            Err(NoMemory) => {
                drop(step);
                Err(StepFault::NoMemory)
            }
        }
    }

    /// The nodes that will have been looked at with this step, or want of memory where they are too many.
    #[tactic(auto)]
    fn spent_with(&self, step: &Step) -> Result<u64, NoMemory> {
        let most = allowed(self.steps.len() as u64).saturating_sub(self.spent);
        let left = left_after(&self.env.sig, &self.sequents, step, most)?;
        Ok(self.spent.saturating_add(most.saturating_sub(left)))
    }

    /// Appends a step that has a sequent.
    #[tactic(none)]
    pub(crate) fn make(&mut self, step: Step) -> Result<ThmId, NoMemory>
        requires { IsSome (sequent self.old.env step self.old.sequents) }
        ensures kept { Extends self.old self.new }
        ensures facts { leaf step ≡ [] → SameFacts self.old self.new }
        ensures made { Made self.old self.new step result }
    {
        match self.try_step(step) {
            Ok(r) => Ok(r),
            Err(StepFault::NoMemory) => Err(NoMemory),
            Err(StepFault::Refused { at: _ }) => unreachable!(),
        }
    }
}
