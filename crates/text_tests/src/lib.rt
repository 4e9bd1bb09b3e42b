//! Tests of what reads and prints theories, proofs, problems and output: what they call is proved once, in its own crate.
#![tactic(auto)]

#[cfg(test)]
mod naming;
#[cfg(test)]
mod printing;
#[cfg(test)]
mod problems;
#[cfg(test)]
mod proof_texts;
#[cfg(test)]
mod proofs;
#[cfg(test)]
mod syntax;
#[cfg(test)]
mod terms;
#[cfg(test)]
mod texts;
#[cfg(test)]
mod theories;
#[cfg(test)]
mod used_facts;
