// What commands are answered, and how it is written.
use collection_laws::Loaded;
use mig::Network;
use std::fmt;

#[derive(Clone, Copy)]
pub(crate) enum Answer {
    Examined { level: u8, fan_out: u8 },
    Told(Network),
    Represented(u16),
    Asked(Option<Network>),
    Opened(usize),
    Called(collection_laws::Answer),
    Written(usize),
    // Two answers that stand at the beginning of the interpreter's buffer, and how many bytes they have.
    ClauseText(usize),
    Digits(usize),
}

impl fmt::Display for Answer {
    fn fmt<W: fmt::Write>(&self, f: &mut fmt::Formatter<W>) -> fmt::Result {
        match self {
            Answer::Examined { level, fan_out } => write!(f, "level {level} fan-out {fan_out}"),
            Answer::Told(network) => write!(f, "{network}"),
            Answer::Represented(table) => write!(f, "{table:04x}"),
            Answer::Asked(Some(network)) => write!(f, "found {network}"),
            Answer::Asked(None) => write!(f, "none"),
            Answer::Opened(entries) => write!(f, "{entries} entries"),
            Answer::Called(answer) => write_called(answer, f),
            Answer::Written(bytes) => write!(f, "{bytes} bytes"),
            // What stands in the interpreter's buffer is written from there.
            Answer::ClauseText(_) | Answer::Digits(_) => Ok(()),
        }
    }
}

// What a call of the collection is answered.
fn write_called<W: fmt::Write>(
    answer: &collection_laws::Answer,
    f: &mut fmt::Formatter<W>,
) -> fmt::Result {
    match answer {
        collection_laws::Answer::Given {
            network,
            lower,
            asked,
        } => write!(
            f,
            "{network} gates {} lower {lower} asked {asked}",
            network.count
        ),
        collection_laws::Answer::NoneWithin { lower, asked } => {
            write!(f, "none lower {lower} asked {asked}")
        }
        collection_laws::Answer::Deposited { gates } => write!(f, "{gates} gates"),
        collection_laws::Answer::Known {
            lower,
            kept: Some((upper, network)),
        } => write!(f, "lower {lower} upper {upper} {network}"),
        collection_laws::Answer::Known { lower, kept: None } => {
            write!(f, "lower {lower} no network")
        }
        collection_laws::Answer::Struck => write!(f, "0"),
        collection_laws::Answer::Loaded(loaded) => write_loaded(loaded, f),
        collection_laws::Answer::Exported { bytes } => write!(f, "{bytes} bytes"),
    }
}

// How many records were taken and passed over, and the fault; where there is none, its three numbers are 0.
fn write_loaded<W: fmt::Write>(loaded: &Loaded, f: &mut fmt::Formatter<W>) -> fmt::Result {
    let (number, layer, place) = loaded.fault_numbers();
    let Loaded { taken, passed, .. } = *loaded;
    write!(
        f,
        "taken {taken} passed {passed} fault {number} layer {layer} place {place}"
    )
}
