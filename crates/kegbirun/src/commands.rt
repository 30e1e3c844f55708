// The commands: how they are read, and how they are answered.
use crate::answers::Answer;
use crate::interpreter::Interpreter;
use crate::words::{Unreadable, next};
use classes::representative;
use collection_laws::{Call, Opening};
use examine::examine;
use mig::{Limits, Network, Question, Refusal};
use normalise::normalise;
use std::str::SplitAsciiWhitespace;
use std::{fmt, fs};

#[derive(Clone, Copy)]
pub(crate) enum Command<'a> {
    Examine(Question, Network),
    Normalise(u8, Network),
    Representative(u8, u32),
    Ask(Question, u8),
    Open(Opening),
    Order(Question, u8),
    Deposit(Question, Network),
    LookUp(Question),
    Strike(Question),
    Load(&'a str),
    Export(&'a str),
    Clauses(Question, u8, Option<&'a str>),
    Assignment(Question, u8, Network),
    NetworkOf(Question, u8, &'a str),
}

// Why a command has no answer.
#[derive(Clone, Copy)]
pub(crate) enum Unanswered<'a> {
    Refused(Refusal),
    CannotRead(&'a str),
    CannotWrite(&'a str),
}

impl fmt::Display for Unanswered<'_> {
    fn fmt<W: fmt::Write>(&self, f: &mut fmt::Formatter<W>) -> fmt::Result {
        match self {
            Unanswered::Refused(refusal) => write!(f, "refused {} {refusal}", refusal.number()),
            Unanswered::CannotRead(file) => write!(f, "cannot read {file}"),
            Unanswered::CannotWrite(file) => write!(f, "cannot write {file}"),
        }
    }
}

impl From<Refusal> for Unanswered<'_> {
    fn from(refusal: Refusal) -> Self {
        Unanswered::Refused(refusal)
    }
}

// The number of inputs, the table and the two limits.
fn next_question(words: &mut SplitAsciiWhitespace) -> Result<Question, Unreadable> {
    Ok(Question {
        inputs: next(words)?,
        table: next(words)?,
        limits: Limits {
            depth: next(words)?,
            fan_out: next(words)?,
        },
    })
}

// How a collection opens.
fn next_opening(words: &mut SplitAsciiWhitespace) -> Result<Opening, Unreadable> {
    match words.next().ok_or(Unreadable::TooFewWords)? {
        "empty" => Ok(Opening::Empty),
        "starter" => Ok(Opening::WithStarters),
        _ => Err(Unreadable::NoOpening),
    }
}

// A row of decimal digits.
fn next_digits<'a>(words: &mut SplitAsciiWhitespace<'a>) -> Result<&'a str, Unreadable> {
    let word = words.next().ok_or(Unreadable::TooFewWords)?;
    if word.bytes().all(|byte| byte.is_ascii_digit()) {
        Ok(word)
    } else {
        Err(Unreadable::NoDigits)
    }
}

// The name of a file.
fn next_file<'a>(words: &mut SplitAsciiWhitespace<'a>) -> Result<&'a str, Unreadable> {
    words.next().ok_or(Unreadable::TooFewWords)
}

impl<'a> Command<'a> {
    // The command's name, and then what it takes.
    pub(crate) fn read(text: &'a str) -> Result<Command<'a>, Unreadable> {
        let mut words = text.split_ascii_whitespace();
        let name = words.next().ok_or(Unreadable::TooFewWords)?;
        let command = Command::named(name, &mut words)?;
        if words.next().is_some() {
            return Err(Unreadable::TooManyWords);
        }
        Ok(command)
    }

    // The command of a name, with the words that it takes.
    fn named(name: &str, words: &mut SplitAsciiWhitespace<'a>) -> Result<Command<'a>, Unreadable> {
        Ok(match name {
            "examine" => Command::Examine(next_question(words)?, next(words)?),
            "normalise" => Command::Normalise(next(words)?, next(words)?),
            "representative" => Command::Representative(next(words)?, next(words)?),
            "ask" => Command::Ask(next_question(words)?, next(words)?),
            "open" => Command::Open(next_opening(words)?),
            "order" => Command::Order(next_question(words)?, next(words)?),
            "deposit" => Command::Deposit(next_question(words)?, next(words)?),
            "look-up" => Command::LookUp(next_question(words)?),
            "strike" => Command::Strike(next_question(words)?),
            "load" => Command::Load(next_file(words)?),
            "export" => Command::Export(next_file(words)?),
            "clauses" => Command::Clauses(next_question(words)?, next(words)?, words.next()),
            "assignment" => Command::Assignment(next_question(words)?, next(words)?, next(words)?),
            "network" => {
                Command::NetworkOf(next_question(words)?, next(words)?, next_digits(words)?)
            }
            _ => return Err(Unreadable::UnknownCommand),
        })
    }

    pub(crate) fn name(&self) -> &'static str {
        match self {
            Command::Examine(..) => "examine",
            Command::Normalise(..) => "normalise",
            Command::Representative(..) => "representative",
            Command::Ask(..) => "ask",
            Command::Open(..) => "open",
            Command::Order(..) => "order",
            Command::Deposit(..) => "deposit",
            Command::LookUp(..) => "look-up",
            Command::Strike(..) => "strike",
            Command::Load(..) => "load",
            Command::Export(..) => "export",
            Command::Clauses(..) => "clauses",
            Command::Assignment(..) => "assignment",
            Command::NetworkOf(..) => "network",
        }
    }

    // Answers the command; those of the collection work on that of the interpreter.
    pub(crate) fn answer(
        self,
        rt: &HostRuntime,
        interpreter: &mut Interpreter,
    ) -> Result<Answer, Unanswered<'a>> {
        Ok(match self {
            Command::Examine(question, network) => {
                let (level, fan_out) = examine(&question, &network)?;
                Answer::Examined { level, fan_out }
            }
            Command::Normalise(inputs, network) => Answer::Told(normalise(inputs, &network)?),
            Command::Representative(inputs, table) => {
                Answer::Represented(representative(inputs, table)?)
            }
            Command::Ask(question, gates) => Answer::Asked(interpreter.ask(&question, gates)?),
            Command::Open(opening) => Answer::Opened(interpreter.open(opening)),
            Command::Order(question, gates) => {
                Answer::Called(interpreter.call(Call::Order { question, gates })?)
            }
            Command::Deposit(question, network) => {
                Answer::Called(interpreter.call(Call::Deposit { question, network })?)
            }
            Command::LookUp(question) => Answer::Called(interpreter.call(Call::LookUp {
                question,
            })?),
            Command::Strike(question) => Answer::Called(interpreter.call(Call::Strike {
                question,
            })?),
            Command::Load(file) => load(rt, interpreter, file)?,
            Command::Export(file) => export(rt, interpreter, file)?,
            Command::Clauses(question, gates, None) => {
                Answer::ClauseText(interpreter.clause_text(&question, gates)?)
            }
            Command::Clauses(question, gates, Some(file)) => {
                let bytes = interpreter.clause_text(&question, gates)?;
                write_file(rt, interpreter, bytes, file)?;
                Answer::Written(bytes)
            }
            Command::Assignment(question, gates, network) => {
                Answer::Digits(interpreter.assignment(&question, gates, &network)?)
            }
            Command::NetworkOf(question, gates, digits) => {
                Answer::Told(interpreter.network(&question, gates, digits)?)
            }
        })
    }
}

// Loads the bytes of a file.
fn load<'a>(
    rt: &HostRuntime,
    interpreter: &mut Interpreter,
    file: &'a str,
) -> Result<Answer, Unanswered<'a>> {
    let bytes = fs::read(rt, file).map_err(|_| Unanswered::CannotRead(file))?;
    Ok(Answer::Called(interpreter.call(Call::Load {
        bytes: bytes.as_slice(),
    })?))
}

// Exports to a file.
fn export<'a>(
    rt: &HostRuntime,
    interpreter: &mut Interpreter,
    file: &'a str,
) -> Result<Answer, Unanswered<'a>> {
    let answer = interpreter.call(Call::Export)?;
    if let collection_laws::Answer::Exported { bytes } = answer {
        write_file(rt, interpreter, bytes, file)?;
    }
    Ok(Answer::Called(answer))
}

// Writes the first bytes of the interpreter's buffer to a file.
fn write_file<'a>(
    rt: &HostRuntime,
    interpreter: &Interpreter,
    bytes: usize,
    file: &'a str,
) -> Result<(), Unanswered<'a>> {
    fs::write(rt, file, interpreter.written(bytes)).map_err(|_| Unanswered::CannotWrite(file))
}
