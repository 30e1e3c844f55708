// A formula in words as the solver reads it, taken from the lines of a DIMACS text.

use sat::{Answer, Shape, literals_place, solve, values_place};
use std::str;
use thiserror::Error;

// Why there is no answer.
#[derive(Clone, Copy, Debug, Error)]
pub(crate) enum Fault {
    #[error("usage: dimacs [WORDS [LEARNT]]")]
    BadArguments,
    #[error("not one line p cnf VARIABLES CLAUSES, before the clauses")]
    BadHeader,
    #[error("not a number")]
    NoNumber,
    #[error("a variable above the number of variables")]
    NoVariable,
    #[error("not as many clauses as the line p says")]
    OtherCount,
    #[error("no 0 behind the last clause")]
    NoEnd,
    #[error("above 32768 variables")]
    TooManyVariables,
    #[error("too few words")]
    TooFewWords,
    #[error("too few words, or above 32767 clauses with the learnt ones")]
    Refused,
}

// The number that a word says.
fn number(word: Option<&str>) -> Result<i32, Fault> {
    word.and_then(|word| word.parse::<i32>().ok())
        .ok_or(Fault::NoNumber)
}

// The text of a line.
fn text(line: &[u8]) -> Result<&str, Fault> {
    str::from_utf8(line).map_err(|_| Fault::NoNumber)
}

// The shape that a line p says, with room for so many learnt clauses.
fn read_shape(line: &str, learnt: u32) -> Result<Shape, Fault> {
    let mut words = line.split_ascii_whitespace();
    if (words.next(), words.next()) != (Some("p"), Some("cnf")) {
        return Err(Fault::BadHeader);
    }
    let variables = number(words.next())?;
    let clauses = number(words.next())?;
    if variables > 32768 {
        return Err(Fault::TooManyVariables);
    }
    if variables < 0 || clauses < 0 || words.next().is_some() {
        return Err(Fault::BadHeader);
    }
    Ok(Shape {
        variables: variables.unsigned_abs(),
        clauses: clauses.unsigned_abs(),
        learnt,
    })
}

// The words, their shape, and how many clauses and literals were taken.
#[derive(Drop)]
pub(crate) struct Formula {
    words: Vec<u32>,
    shape: Shape,
    clauses: u32,
    literals: u32,
}

impl Formula {
    // The formula of a line p, of which no clause was taken, in words that are 0.
    pub(crate) fn new(words: Vec<u32>, line: &[u8], learnt: u32) -> Result<Formula, Fault> {
        Ok(Formula {
            words,
            shape: read_shape(text(line)?, learnt)?,
            clauses: 0,
            literals: 0,
        })
    }

    // Takes the numbers of a line.
    pub(crate) fn take_line(&mut self, line: &[u8]) -> Result<(), Fault> {
        for word in text(line)?.split_ascii_whitespace() {
            self.take(number(Some(word))?)?;
        }
        Ok(())
    }

    // Takes a number: a literal, or 0, the end of a clause.
    fn take(&mut self, number: i32) -> Result<(), Fault> {
        match number.unsigned_abs().checked_sub(1) {
            Some(variable) => self.take_literal(variable, number > 0),
            None => self.end_clause(),
        }
    }

    // Puts a literal behind those that were taken, two in a word.
    fn take_literal(&mut self, variable: u32, sign: bool) -> Result<(), Fault> {
        if variable >= self.shape.variables {
            return Err(Fault::NoVariable);
        }
        let literal = variable.saturating_mul(2).saturating_add(u32::from(sign));
        let place = literals_place(&self.shape).saturating_add(self.literals as usize / 2);
        let word = self.words.get_mut(place).ok_or(Fault::TooFewWords)?;
        *word |= if self.literals % 2 == 0 {
            literal
        } else {
            literal << 16
        };
        self.literals = self.literals.saturating_add(1);
        Ok(())
    }

    // Ends the clause that was begun.
    fn end_clause(&mut self) -> Result<(), Fault> {
        if self.clauses >= self.shape.clauses {
            return Err(Fault::OtherCount);
        }
        self.clauses = self.clauses.saturating_add(1);
        let end = self
            .words
            .get_mut(self.clauses as usize)
            .ok_or(Fault::TooFewWords)?;
        *end = self.literals;
        Ok(())
    }

    // Whether each clause was taken whole.
    pub(crate) fn check_whole(&self) -> Result<(), Fault> {
        if self.clauses != self.shape.clauses {
            return Err(Fault::OtherCount);
        }
        match self.words.get(self.clauses as usize) {
            Some(&end) if end == self.literals => Ok(()),
            _ => Err(Fault::NoEnd),
        }
    }

    // Has the formula decided.
    pub(crate) fn solve(&mut self) -> Answer {
        solve(self.words.as_mut_slice(), &self.shape)
    }

    // The values of the variables, 2 for true.
    pub(crate) fn values(&self) -> &[u32] {
        let place = values_place(&self.shape);
        self.words
            .get(place..place.saturating_add(self.shape.variables as usize))
            .unwrap_or(&[])
    }

    // How many words there are up to the last one that is not 0.
    pub(crate) fn words_used(&self) -> usize {
        self.words
            .iter()
            .rposition(|&word| word != 0)
            .map_or(0, |place| place.saturating_add(1))
    }
}
