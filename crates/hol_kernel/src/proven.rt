use crate::Step;
use text_kit::Rows;

/// A proof as it is handed on: the places of the facts that it rests on, and its steps.
#[derive(Debug, Drop)]
pub struct Proven {
    pub names: Rows<u32>,
    pub steps: Rows<Step>,
}
