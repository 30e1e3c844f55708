// The fewest gates of many questions, asked of searches. What the program has to write was made by other means.
#![tactic(auto)]

use bound_layer::BoundLayer;
use classes::representative;
use enumeration::Enumeration;
use examine::examine;
use mig::{Limits, Network, Question, Refusal};
use search::Search;
use split_search::Split;
use thiserror::Error;

// Why it is not known how many gates a question needs, and the mark that is written in their place.
#[derive(Clone, Copy, Debug, Error)]
enum Fault {
    #[error("?")]
    Refused(#[from] Refusal),
    #[error("9")]
    BadNetwork,
}

// Whether no network of at most `gates` gates is found. One that is given has to meet the question.
fn is_none<S: Search>(search: &mut S, question: &Question, gates: u8) -> Result<bool, Fault> {
    let mut place = Network::default();
    if !search.ask(question, gates, &mut place, &mut [])? {
        return Ok(true);
    }
    if place.count > gates || examine(question, &place).is_err() {
        return Err(Fault::BadNetwork);
    }
    Ok(false)
}

// How many of the gate numbers from 0 to `most` are answered "none".
fn nones<S: Search>(search: &mut S, question: &Question, most: u8) -> Result<u8, Fault> {
    (0..=most).try_fold(0u8, |none, gates| {
        Ok(none.saturating_add(u8::from(is_none(search, question, gates)?)))
    })
}

// Writes a line of digits, one for each table over three inputs: the fewest gates within the limits, 4 if three do not
// suffice.
fn write_minima<S: Search>(rt: &HostRuntime, search: &mut S, limits: Limits) -> anyhow::Result<()> {
    for table in 0..256 {
        let question = Question {
            inputs: 3,
            table,
            limits,
        };
        match nones(search, &question, 3) {
            Ok(least) => print!(rt; "{least}")?,
            Err(fault) => print!(rt; "{fault}")?,
        }
    }
    println!(rt; "")?;
    Ok(())
}

// Writes the lines of all limits that are tried.
fn write_all_minima<S: Search>(rt: &HostRuntime, search: &mut S) -> anyhow::Result<()> {
    for depth in 0..4 {
        for fan_out in [1, 2, 19] {
            write_minima(rt, search, Limits { depth, fan_out })?;
        }
    }
    Ok(())
}

// Writes how many of the classes over four inputs need 0, 1, 2, 3 and 4 gates.
fn write_classes<S: Search>(rt: &HostRuntime, search: &mut S) -> anyhow::Result<()> {
    let mut classes = [0u32; 5];
    let limits = Limits {
        depth: 7,
        fan_out: 19,
    };
    for table in (0..=u16::MAX).filter(|&table| representative(4, u32::from(table)) == Ok(table)) {
        let question = Question {
            inputs: 4,
            table: u32::from(table),
            limits,
        };
        if let Ok(gates) = nones(search, &question, 4)
            && let Some(count) = classes.get_mut(usize::from(gates))
        {
            *count = count.saturating_add(1);
        }
    }
    let [none, one, two, three, four] = classes;
    println!(rt; "{none} {one} {two} {three} {four}")?;
    Ok(())
}

fn main(rt: HostRuntime) -> anyhow::Result<()> {
    write_all_minima(&rt, &mut Enumeration::new())?;
    let mut pile = BoundLayer::new(Split::new(Enumeration::new(), Enumeration::new()));
    write_all_minima(&rt, &mut pile)?;
    write_classes(&rt, &mut pile)
}
