use fo_terms::Clause;
use text_kit::Rows;

/// How an inference is made, by the places of the literals that take part.
#[derive(Debug, Drop)]
pub enum Rule {
    /// resolution of the left clause's literal `i` with the right one's literal `j`
    Resolve {
        i: u64,
        j: u64,
    },
    /// the left clause's equation `i`, as written or swapped, put into the right one's literal `j`
    ///
    /// The path's first number is the side of the atom, 0 for the left or only term and 1 for the right one.
    /// The others are places of arguments, counted from 0.
    Para {
        i: u64,
        swapped: bool,
        j: u64,
        path: Rows<u64>,
    },
    /// one clause's literals `i` and `j` made the same
    Factor {
        i: u64,
        j: u64,
    },
    /// the sides of one clause's negated equation `i` made the same
    Reflex {
        i: u64,
    },
}

/// An inference: the clause that it gives, in normal form, and how it was made.
#[derive(Debug, Drop)]
pub struct Made {
    /// the clause, in normal form
    pub clause: Clause,
    /// how it was made
    pub rule: Rule,
}
