ghost use Rattle.std.specs.Prelude.{◌<◌, All, length};
ghost use Rattle.theory_reader.specs.Seen.{seen};
ghost use Rattle.problem_laws.specs.Laws.{ProblemIsRead};

use text_kit::Rows;
use theory_reader::Theory;

/// The text of a problem (`tptp_print::problem_text`) is read by `tptp_syntax::read_problem` as the statements that were
/// written, wherever it opens no more than 4,096 brackets at once: with their names and roles, and with their formulas as
/// first-order ones, whose symbols have the numbers that the reader gives to their names. It does nothing: its contract is the law.
pub fn problem_is_read(theory: &Theory, goal: u32, facts: &Rows<u32>)
    requires goal { goal < length theory.now.goals }
    requires facts { All (λ n. n < length (seen theory.now goal)) facts.now }
    ensures { ProblemIsRead theory.now goal facts.now }
{}
