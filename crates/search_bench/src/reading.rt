use fo_terms::{Atom, Clause, FoTerm, Literal};
use std::alloc::Global;
use text_kit::{NoMemory, Rows};

/// The deepest term that is read.
const DEEPEST: u32 = 10_000;

/// Why a text isn't read.
#[derive(Clone, Copy, Debug, Drop, PartialEq, Eq)]
pub enum Fault {
    /// it has another form from this word on, counted from 0
    Form(usize),
    NoMemory,
}

impl From<NoMemory> for Fault {
    fn from(_: NoMemory) -> Fault {
        Fault::NoMemory
    }
}

/// A problem: clauses and how they are searched.
#[derive(Drop)]
pub struct Problem {
    /// whether equations are put into all terms, and not into tagged ones alone
    pub plain: bool,
    /// how many picks are made at most
    pub budget: u32,
    /// each pick whose number this divides takes the oldest clause
    pub age: u32,
    pub clauses: Rows<Clause>,
}

/// The words of a text, of which some are read.
#[derive(Drop)]
pub struct Words<'a> {
    words: Vec<&'a str>,
    read: usize,
}

impl<'a> Words<'a> {
    pub fn begin(words: Vec<&'a str>) -> Words<'a> {
        Words { words, read: 0 }
    }

    fn fault(&self) -> Fault {
        Fault::Form(self.read)
    }

    /// The next word.
    fn word(&mut self) -> Result<&'a str, Fault> {
        if self.read >= self.words.len() {
            return Err(self.fault());
        }
        let word = self.words[self.read];
        self.read += 1;
        Ok(word)
    }

    /// The next word as a number.
    pub fn number(&mut self) -> Result<u64, Fault> {
        match self.word()?.parse::<u64>() {
            Ok(n) => Ok(n),
            Err(_) => Err(self.fault()),
        }
    }

    /// The next word as a number below 2^32.
    fn short_number(&mut self) -> Result<u32, Fault> {
        match u32::try_from(self.number()?) {
            Ok(n) => Ok(n),
            Err(_) => Err(self.fault()),
        }
    }

    /// `1` or `0`.
    fn truth(&mut self) -> Result<bool, Fault> {
        match self.word()? {
            "1" => Ok(true),
            "0" => Ok(false),
            _ => Err(self.fault()),
        }
    }

    /// `v N`, or `f SYMBOL ARITY` and the arguments.
    fn term(&mut self, alloc: Global, depth: u32) -> Result<FoTerm, Fault> {
        match self.word()? {
            "v" => Ok(FoTerm::Var(self.number()?)),
            "f" => {
                let symbol = self.number()?;
                let arity = self.number()?;
                if depth == 0 {
                    return Err(self.fault());
                }
                let mut args = Rows::begin(alloc);
                for _ in 0..arity {
                    args.push(self.term(alloc, depth - 1)?)?;
                }
                Ok(FoTerm::Fun(symbol, args))
            }
            _ => Err(self.fault()),
        }
    }

    /// `1` or `0` for the sign, and then `h` and a term, or `e` and two.
    fn literal(&mut self, alloc: Global) -> Result<Literal, Fault> {
        let positive = self.truth()?;
        match self.word()? {
            "h" => Ok(Literal {
                positive,
                atom: Atom::Holds(self.term(alloc, DEEPEST)?),
            }),
            "e" => {
                let left = self.term(alloc, DEEPEST)?;
                let right = self.term(alloc, DEEPEST)?;
                Ok(Literal {
                    positive,
                    atom: Atom::Eq(left, right),
                })
            }
            _ => Err(self.fault()),
        }
    }

    /// The number of literals, and these.
    fn clause(&mut self, alloc: Global) -> Result<Clause, Fault> {
        let count = self.number()?;
        let mut literals = Rows::begin(alloc);
        for _ in 0..count {
            literals.push(self.literal(alloc)?)?;
        }
        Ok(Clause { literals })
    }

    /// `1` for plain positions or `0` for tagged ones, the budget, the age, the number of clauses, and these.
    pub fn problem(&mut self, alloc: Global) -> Result<Problem, Fault> {
        let plain = self.truth()?;
        let budget = self.short_number()?;
        let age = self.short_number()?;
        if age == 0 {
            return Err(self.fault());
        }
        let count = self.number()?;
        let mut clauses = Rows::begin(alloc);
        for _ in 0..count {
            clauses.push(self.clause(alloc)?)?;
        }
        Ok(Problem {
            plain,
            budget,
            age,
            clauses,
        })
    }

    /// That no word is left.
    pub fn end(&self) -> Result<(), Fault> {
        if self.read == self.words.len() {
            Ok(())
        } else {
            Err(self.fault())
        }
    }
}
