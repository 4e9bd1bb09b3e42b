/// Why a step was not appended.
#[derive(Clone, Copy, Debug, Drop, PartialEq, Eq)]
pub enum StepFault {
    /// The rules give no sequent for the step, which would have had this place.
    Refused { at: u64 },
    /// Memory ran out.
    NoMemory,
}
