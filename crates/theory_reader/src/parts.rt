use crate::{Fact, Goal};
use text_kit::Rows;
use theory_terms::{Known, Names};

/// What is declared so far, with tables of the names of facts and goals.
#[derive(Drop)]
pub(crate) struct Parts<'t> {
    pub(crate) known: Known<'t>,
    pub(crate) fact_names: Names<'t>,
    pub(crate) goal_names: Names<'t>,
    pub(crate) facts: Rows<Fact>,
    pub(crate) goals: Rows<Goal>,
}
