// How gates, networks and refusals are written.
ghost use Rattle.std.specs.Prelude.{Some};
ghost use Rattle.std.specs.Fmt.{DisplaysOnOk};
ghost use Rattle.mig.specs.Text.{gate_text, later_gates_text, network_text, refusal_text};

use crate::{Gate, Network, Refusal};
use std::fmt;

// The codes in decimal digits, with dots between them.
impl fmt::Display for Gate {
    ghost output = { λ g. Some (gate_text g) };

    fn fmt<W: fmt::Write>(&self, f: &mut fmt::Formatter<W>) -> fmt::Result {
        let Gate {
            first,
            second,
            third,
        } = *self;
        write!(f, "{first}.{second}.{third}")
    }
}

// Gates, with a comma before each.
fn write_later_gates<W: fmt::Write>(gates: &[Gate], f: &mut fmt::Formatter<W>) -> fmt::Result
    ensures { DisplaysOnOk W.write_str_gives f.old result (Some (later_gates_text gates.now)) f.new }
{
    for gate in gates {
        write!(f, ",{gate}")?;
    }
    Ok(())
}

// The gates, with commas between them, then a colon and the code of the output.
impl fmt::Display for Network {
    ghost output = { λ n. Some (network_text n) };

    fn fmt<W: fmt::Write>(&self, f: &mut fmt::Formatter<W>) -> fmt::Result {
        if let Some((first, later)) = self.gates().split_first() {
            write!(f, "{first}")?;
            write_later_gates(later, f)?;
        }
        let output = self.output;
        write!(f, ":{output}")
    }
}

// What the refusal says: by hand and not by a derive, so that the bytes are stated.
impl fmt::Display for Refusal {
    ghost output = { λ e. Some (refusal_text e) };

    fn fmt<W: fmt::Write>(&self, f: &mut fmt::Formatter<W>) -> fmt::Result {
        f.write_str(match self {
            Refusal::InputsAboveFour => "more than four inputs",
            Refusal::TableBitBeyondRows => "a table bit behind the last row",
            Refusal::DepthLimitAboveSeven => "depth limit above 7",
            Refusal::FanOutLimitOutOfRange => "fan-out limit 0 or above 19",
            Refusal::GatesAboveReach => "more gates than the search reaches",
            Refusal::TooFewWorkWords => "too few work words",
            Refusal::CollectionFull => "collection full",
            Refusal::KeyNotKept => "key not kept",
            Refusal::MalformedNetwork => "malformed network",
            Refusal::WrongTable => "does not compute the table",
            Refusal::LevelAboveLimit => "level above the depth limit",
            Refusal::FanOutAboveLimit => "a gate's fan-out above the fan-out limit",
            Refusal::NoImprovement => "no fewer gates than the kept network",
            Refusal::BufferTooShort => "buffer too short",
            Refusal::BytesEndInRecord => "the bytes end inside a record",
            Refusal::WrongRecordLength => "a record length that its kind does not have",
            Refusal::UnknownRecordKind => "unknown kind of record",
            Refusal::NoAssignment => "not one byte of 0 or 1 for each variable",
            Refusal::ClauseFails => "a clause fails",
        })
    }
}
