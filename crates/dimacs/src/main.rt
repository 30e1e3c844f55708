// The program: reads a formula as DIMACS text from standard input, has the solver decide it, and answers as solvers do.
#![tactic(auto)]

mod formula;

use formula::{Fault, Formula};
use sat::Answer;
use std::env;
use std::io::{BufRead, BufReader};
use std::process::ExitCode;

// How many words are lent to the solver, and for how many learnt clauses there is room, where it is not said.
const WORDS: u32 = 131072;

const LEARNT: u32 = 10000;

// The exit codes of an answered formula.
const SATISFIABLE: u8 = 10;

const UNSATISFIABLE: u8 = 20;

// The number that an argument says, or the usual one where there is no argument.
fn number_or(argument: Option<String>, usual: u32) -> Result<u32, Fault> {
    match argument {
        Some(word) => word
            .as_str()
            .parse::<u32>()
            .map_err(|_| Fault::BadArguments),
        None => Ok(usual),
    }
}

// Whether a line says nothing of the formula.
fn is_comment(line: &[u8]) -> bool {
    line.trim_ascii().is_empty() || line.starts_with(b"c")
}

// The formula that the lines of the input say, to its end, in so many words.
fn read_formula<R: BufRead + Drop>(
    rt: &HostRuntime,
    input: R,
    words: u32,
    learnt: u32,
) -> anyhow::Result<Formula> {
    let mut begun: Option<Formula> = None;
    for line in input.split(rt.alloc(), b'\n') {
        let line = line?;
        if is_comment(line.as_slice()) {
            continue;
        }
        if let Some(formula) = &mut begun {
            formula.take_line(line.as_slice())?;
        } else {
            let words = vec![in rt.alloc(); 0u32; words as usize]?;
            begun = Some(Formula::new(words, line.as_slice(), learnt)?);
        }
    }
    let formula = begun.ok_or(Fault::BadHeader)?;
    formula.check_whole()?;
    Ok(formula)
}

// Writes the model that the solver told.
fn write_model(rt: &HostRuntime, formula: &Formula) -> anyhow::Result<()> {
    print!(rt; "v")?;
    for (variable, value) in (1u32..).zip(formula.values()) {
        let sign = if *value == 2 { "" } else { "-" };
        print!(rt; " {sign}{variable}")?;
    }
    println!(rt; " 0")?;
    Ok(())
}

// Has the formula decided and writes the answer; the exit code.
fn answer(rt: &HostRuntime, mut formula: Formula) -> anyhow::Result<u8> {
    let code = match formula.solve() {
        Answer::Satisfiable => {
            println!(rt; "s SATISFIABLE")?;
            write_model(rt, &formula)?;
            SATISFIABLE
        }
        Answer::Unsatisfiable => {
            println!(rt; "s UNSATISFIABLE")?;
            UNSATISFIABLE
        }
        Answer::Refused => return Err(Fault::Refused.into()),
    };
    println!(rt; "c words used {}", formula.words_used())?;
    Ok(code)
}

fn run(rt: &HostRuntime) -> anyhow::Result<u8> {
    let mut arguments = env::args(rt)?.skip(1);
    let words = number_or(arguments.next(), WORDS)?;
    let learnt = number_or(arguments.next(), LEARNT)?;
    if arguments.next().is_some() {
        return Err(Fault::BadArguments.into());
    }
    let input = BufReader::new(rt.alloc(), rt.stdin())?;
    answer(rt, read_formula(rt, input, words, learnt)?)
}

fn main(rt: HostRuntime) -> ExitCode {
    match run(&rt) {
        Ok(code) => ExitCode::from(code),
        Err(why) => {
            let _said = println!(rt; "s UNKNOWN\nc {why}");
            ExitCode::SUCCESS
        }
    }
}
