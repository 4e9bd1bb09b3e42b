ghost use Rattle.std.specs.Prelude.{◌≡◌, ◌<◌, length, IsTrue, IfOk};
ghost use Rattle.slot_work.specs.Visible.{visible as visible_of, goal_fits};
ghost use Rattle.slot_work.specs.Jobs.{IsJobOf};

use hol_terms::Env;
use std::alloc::Global;
use std::marker::Model;
use text_kit::{NoMemory, Rows};
use theory_reader::Theory;

/// What the bytes of children are replayed for: a goal of a theory, the facts that it may be proved from, and a budget of picks.
#[derive(Drop)]
pub struct Job<'t> {
    pub(crate) theory: &'t Theory,
    pub(crate) goal: u32,
    pub(crate) env: Env,
    pub(crate) visible: Rows<u32>,
    pub(crate) budget: u32,
}

impl<'t> Model for Job<'t> {
    ghost use Rattle.std.specs.Prelude.{ℕ, List, refl};
    ghost use Rattle.std.specs.Coded.{code_by, coded×, coded_list, coded_ℕ};
    ghost use Rattle.hol_terms.specs.declared.env.Env.{Env};
    ghost use Rattle.hol_terms.specs.contracts.env.Env as the_env;
    ghost use Rattle.theory_reader.specs.declared.theory.Theory.{Theory};
    ghost use Rattle.theory_reader.specs.contracts.theory.Theory as the_theory;
    ghost use Rattle.slot_work.specs.Jobs.{Posed, IsJobOf};

    ghost Value = { Posed };

    ghost coded = { code_by (Theory × (ℕ × (Env × (List ℕ × ℕ)))) (coded× the_theory.the_row.coded (coded× coded_ℕ (coded× the_env.the_row.coded (coded× (coded_list coded_ℕ) coded_ℕ)))) (λ j. (j.theory, (j.goal, (j.env, (j.visible, j.budget))))) (λ p. record { theory = p.0; goal = p.1.0; env = p.1.1.0; visible = p.1.1.1.0; budget = p.1.1.1.1 }) (λ _. refl) };

    ghost view = { λ j. record { theory = j.theory.now; goal = j.goal; env = j.env; visible = j.visible; budget = j.budget } };

    ghost invariant = { λ j. IsJobOf j.theory.now j.goal j.budget (record { theory = j.theory.now; goal = j.goal; env = j.env; visible = j.visible; budget = j.budget }) };
}

impl<'t> Job<'t> {
    /// Begins the job for a goal of a theory. `visible` are the numbers of the facts beside the goal that fit, and the goal fits.
    pub fn begin(
        alloc: Global,
        theory: &'t Theory,
        goal: u32,
        visible: Rows<u32>,
        budget: u32,
    ) -> Result<Job<'t>, NoMemory>
        requires goal { goal < length theory.now.goals }
        requires visible { visible ≡ visible_of theory.now goal }
        requires fits { IsTrue (goal_fits theory.now goal) }
        ensures { IfOk result (IsJobOf theory.now goal budget) }
    {
        let env = theory.env(alloc, goal)?;
        Ok(Job {
            theory,
            goal,
            env,
            visible,
            budget,
        })
    }
}
