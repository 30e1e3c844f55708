// The program: reads commands, one a line, from a file or from standard input, and answers each on a line of its own.
#![tactic(auto)]

mod answers;
mod commands;
mod interpreter;
mod words;

use answers::Answer;
use anyhow::anyhow;
use commands::Command;
use interpreter::Interpreter;
use std::env;
use std::fs::File;
use std::io::{BufRead, BufReader, Write};
use std::process::ExitCode;

// The text of a line before its comment, which `#` begins.
fn before_comment(line: &str) -> &str {
    line.split_once('#').map_or(line, |(before, _)| before)
}

// Answers one line; nothing where it has no words.
fn answer_line(
    rt: &HostRuntime,
    interpreter: &mut Interpreter,
    number: u64,
    bytes: &[u8],
) -> anyhow::Result<()> {
    let line = String::from_utf8_lossy(rt.alloc(), bytes)?;
    let text = before_comment(line.as_str()).trim_ascii();
    if text.is_empty() {
        return Ok(());
    }
    match Command::read(text) {
        Ok(command) => write_answer(rt, interpreter, command)?,
        Err(why) => println!(rt; "line {number}: {why}")?,
    }
    Ok(())
}

// Writes the name of the command and its answer.
fn write_answer(
    rt: &HostRuntime,
    interpreter: &mut Interpreter,
    command: Command,
) -> anyhow::Result<()> {
    let name = command.name();
    match command.answer(rt, interpreter) {
        Ok(Answer::ClauseText(bytes)) => rt.stdout().write_all(interpreter.written(bytes))?,
        Ok(Answer::Digits(bytes)) => {
            print!(rt; "{name}: ")?;
            rt.stdout().write_all(interpreter.written(bytes))?;
            println!(rt; "")?;
        }
        Ok(answer) => println!(rt; "{name}: {answer}")?,
        Err(why) => println!(rt; "{name}: {why}")?,
    }
    Ok(())
}

// Answers each line of the input, to its end.
// One buffer holds each line in turn. With a new one for each, as `split` makes it, lines of a mebibyte took 1.7 times
// as long.
fn answer_all<R: BufRead + Drop>(rt: &HostRuntime, mut input: R) -> anyhow::Result<()> {
    let mut interpreter = Interpreter::new();
    let mut line = Vec::new(rt.alloc());
    for number in 1..u64::MAX {
        line.clear();
        if input.read_until(b'\n', &mut line)? == 0 {
            break;
        }
        answer_line(rt, &mut interpreter, number, line.as_slice())?;
    }
    Ok(())
}

// Answers each line of the file.
fn answer_file(rt: &HostRuntime, path: &str) -> anyhow::Result<()> {
    let file = File::open(rt, path).map_err(|why| anyhow!("cannot open {path}: {why}"))?;
    answer_all(rt, BufReader::new(rt.alloc(), file)?)
}

fn run(rt: &HostRuntime) -> anyhow::Result<()> {
    let mut words = env::args(rt)?.skip(1);
    match (words.next(), words.next()) {
        (None, _) => answer_all(rt, BufReader::new(rt.alloc(), rt.stdin())?),
        (Some(path), None) => answer_file(rt, path.as_str()),
        _ => Err(anyhow!("usage: kegbirun [FILE]")),
    }
}

fn main(rt: HostRuntime) -> ExitCode {
    match run(&rt) {
        Ok(()) => ExitCode::SUCCESS,
        Err(why) => {
            let _said = eprintln!(rt; "kegbirun: {why}");
            ExitCode::FAILURE
        }
    }
}
