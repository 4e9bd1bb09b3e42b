//! The first place at which no text goes on, for the readers of any grammar whose tokens have levels.
//!
//! A grammar is a relation between lists of tokens with their levels and what they read as. `specs/Answers`
//! says from it alone what a text reads as, where it has its first fault, and which of two faults counts.
//! A reader proves its answers from promises of its parts (`specs/Fails`), and that no text has two answers
//! from a walk over the tokens (`specs/Walk`) that takes whatever is derivable.
#![tactic(auto)]

mod fault;

pub use fault::Fault;

#[cfg(test)]
mod tests {
    use super::*;
    use std::test::Fail;

    #[test]
    fn counts_from_the_front(rt: HostRuntime) -> Result<(), Fail> {
        assert!(rt; Fault::Syntax(0).counted(7) == Fault::Syntax(7));
        assert!(rt; Fault::TooDeep(2).counted(7) == Fault::TooDeep(5));
        Ok(())
    }
}
