//! Runs the search on clauses, and prints how it ended.
//!
//! `search_bench FILE [lines]` reads clauses from a file of words: the number of problems, and for each of them 1 for plain positions or 0
//! for tagged ones, the budget, the age, the number of clauses, and these. A clause is the number of its literals and these, a literal 1
//! or 0 for its sign and then `h` and a term, or `e` and two; a term is `v N`, or `f SYMBOL ARITY` and its arguments. It prints
//! `END found|saturated|spent PICKS KEPT` for each and, with `lines`, below it each kept clause in the same form, `| ` and its origin:
//! `input N`, `alone N RULE` or `pair N M RULE`, where RULE is `resolve I J`, `para I true|false J [PATH]`, `factor I J` or `reflex I`.
//!
//! `search_bench PROBLEM SIZE PICKS` runs a problem that keeps thousands of clauses. `group` are the axioms of groups with the goal, which
//! doesn't follow, that the operation commutes; its size isn't used. `order` is a transitive relation over a chain of `size` constants,
//! with a goal that doesn't follow. `ladder` is a relation over `size` constants that goes on step by step on both sides.
#![tactic(auto)]

mod printing;
mod problems;
mod reading;

use fo_terms::Clause;
use metis_core::{Search, Turn};
use printing::put_line;
use problems::{group, ladder, order};
use reading::{Fault, Problem, Words};
use std::alloc::Global;
use std::{env, fs, io};
use text_kit::{Bytes, NoMemory, Rows};

/// The clauses of the problem of this name, if there is one.
fn built_in(alloc: Global, name: &str, size: u32) -> Result<Option<Rows<Clause>>, NoMemory> {
    match name {
        "group" => Ok(Some(group(alloc)?)),
        "order" => Ok(Some(order(alloc, size)?)),
        "ladder" => Ok(Some(ladder(alloc, size)?)),
        _ => Ok(None),
    }
}

/// Begins the search of a problem.
fn begin(alloc: Global, problem: Problem) -> Result<Search, NoMemory> {
    let Problem {
        plain,
        budget,
        age,
        clauses,
    } = problem;
    if !plain || age == 0 {
        return Search::begin(alloc, clauses, budget);
    }
    Search::begin_child(alloc, clauses, budget, age)
}

/// Turns a search until it ends.
fn finish(search: &mut Search, budget: u32) -> Turn {
    for _ in 0..budget {
        let turn = search.turn(1);
        if !turn.is_more() {
            return turn;
        }
    }
    search.turn(1)
}

fn end_word(turn: Turn) -> &'static str {
    match turn {
        Turn::Found => "found",
        Turn::Saturated => "saturated",
        Turn::Spent => "spent",
        Turn::More => "more",
        Turn::NoMemory => "no-memory",
    }
}

/// The number of kept clauses: the empty clause, which stands behind them where it is found, isn't one.
fn count_of(search: &Search, turn: Turn) -> usize {
    let lines = search.kept().len();
    match turn {
        Turn::Found => lines.saturating_sub(1),
        _ => lines,
    }
}

/// Prints each clause, the empty one too, with its origin.
fn print_lines(rt: &HostRuntime, search: &Search) -> io::Result<()> {
    for line in search.kept().as_slice() {
        let mut out = Bytes::begin(rt.alloc());
        if put_line(&mut out, line).is_ok() {
            match str::from_utf8(out.as_slice()) {
                Ok(text) => println!(rt; "{text}")?,
                Err(_) => eprintln!(rt; "no text")?,
            }
        }
    }
    Ok(())
}

fn solve(rt: &HostRuntime, problem: Problem, lines: bool) -> io::Result<()> {
    let budget = problem.budget;
    match begin(rt.alloc(), problem) {
        Ok(mut search) => {
            let turn = finish(&mut search, budget);
            let word = end_word(turn);
            let kept = count_of(&search, turn);
            println!(rt; "END {word} {} {kept}", search.picks())?;
            if lines {
                print_lines(rt, &search)?;
            }
            Ok(())
        }
        Err(NoMemory) => eprintln!(rt; "out of memory"),
    }
}

/// Solves the problems of a text.
fn solve_all(rt: &HostRuntime, text: &str, lines: bool) -> io::Result<()> {
    let mut words = Words::begin(text.split_ascii_whitespace().collect(rt.alloc())?);
    match words.number() {
        Ok(count) => {
            for _ in 0..count {
                match words.problem(rt.alloc()) {
                    Ok(problem) => solve(rt, problem, lines)?,
                    Err(fault) => return eprintln!(rt; "{fault:?}"),
                }
            }
        }
        Err(fault) => return eprintln!(rt; "{fault:?}"),
    }
    match words.end() {
        Ok(()) => Ok(()),
        Err(fault) => eprintln!(rt; "{fault:?}"),
    }
}

fn number(word: Option<String>, otherwise: u32) -> u32 {
    match word {
        Some(word) => word.parse::<u32>().unwrap_or(otherwise),
        None => otherwise,
    }
}

fn main(rt: HostRuntime) -> io::Result<()> {
    let mut words = env::args(&rt)?.skip(1);
    let name = match words.next() {
        Some(word) => word,
        None => return Ok(()),
    };
    let second = words.next();
    let lines = second.as_deref() == Some("lines");
    let size = number(second, 20);
    let budget = number(words.next(), 100);
    match built_in(rt.alloc(), name.as_str(), size) {
        Ok(Some(clauses)) => {
            let problem = Problem {
                plain: true,
                budget,
                age: 5,
                clauses,
            };
            solve(&rt, problem, lines)
        }
        Ok(None) => {
            let text = fs::read_to_string(&rt, name.as_str())?;
            solve_all(&rt, text.as_str(), lines)
        }
        Err(NoMemory) => eprintln!(rt; "out of memory"),
    }
}
