// The record at the head of some bytes.
ghost use Rattle.std.specs.Prelude.{◌≡◌, ◌≤◌, drop, MatchOption, MatchResult, Ok, Err};
ghost use Rattle.mig.specs.Networks.{Net, net_of, network_of, size};
ghost use Rattle.records.specs.Records.{record_at, record_length, first_gate, gates_from, network_bytes};
ghost use Rattle.records.specs.Reading.{content_at, body_at, network_spelled};

use mig::{Gate, Limits, Network, Question, Refusal};

// What a record says: a question, and a network for it, with the places behind its gates 0.
// Of a network of more than seven gates the first seven stand, with the number of all.
#[derive(Clone, Copy, Debug, PartialEq, Eq)]
pub struct Record {
    pub question: Question,
    pub network: Network,
}

// The gate of the first three codes, and the codes behind it.
// Where fewer are left, the gate of codes 0, and none behind.
fn first_gate(codes: &[u8]) -> (Gate, &[u8])
    ensures gate { result.0 ≡ (first_gate codes.now).0 }
    ensures behind { result.1.now ≡ (first_gate codes.now).1 }
{
    match codes {
        [first, second, third, later @ ..] => (
            Gate {
                first: *first,
                second: *second,
                third: *third,
            },
            later,
        ),
        _ => (Gate::default(), &[]),
    }
}

// The first seven gates of the codes, three a gate; 0 in the places behind them.
fn gates_from(codes: &[u8]) -> [Gate; 7]
    ensures { result ≡ gates_from 7 codes.now }
{
    let mut gates = [Gate::default(); 7];
    let mut rest = codes;
    for place in &mut gates {
        let (gate, later) = first_gate(rest);
        *place = gate;
        rest = later;
    }
    gates
}

// The network that bytes spell: its number of gates, three codes for each, and the output's code.
// Of a network of more than seven gates the first seven stand, with the number of all.
pub fn read_network(bytes: &[u8]) -> Option<Network>
    ensures answer { result ≡ network_spelled bytes.now }
    ensures reads_the_bytes_of_a_network { (net : Net) → size net ≤ 7 → bytes.now ≡ network_bytes net → result ≡ Some (network_of net) }
    ensures read_from_its_bytes { MatchOption result (Unit {0}) (λ network. network.count ≤ 7 → bytes.now ≡ network_bytes (net_of network)) }
{
    let [count, codes @ .., output] = bytes else {
        return None;
    };
    if codes.len() != 3 * usize::from(*count) {
        return None;
    }
    Some(Network {
        count: *count,
        gates: gates_from(codes),
        output: *output,
    })
}

// The record of a body.
fn read_body(body: &[u8]) -> Result<Record, Refusal>
    ensures { result ≡ body_at body.now }
{
    let [inputs, low, high, depth, fan_out, _, network @ ..] = body else {
        return Err(Refusal::WrongRecordLength);
    };
    let Some(network) = read_network(network) else {
        return Err(Refusal::WrongRecordLength);
    };
    Ok(Record {
        question: Question {
            inputs: *inputs,
            table: u32::from(u16::from_le_bytes([*low, *high])),
            limits: Limits {
                depth: *depth,
                fan_out: *fan_out,
            },
        },
        network,
    })
}

// The record of what follows its length: a kind, and a body.
fn read_content(content: &[u8]) -> Result<Record, Refusal>
    ensures { result ≡ content_at content.now }
{
    let [low, high, body @ ..] = content else {
        return Err(Refusal::WrongRecordLength);
    };
    if u16::from_le_bytes([*low, *high]) != 1 {
        return Err(Refusal::UnknownRecordKind);
    }
    read_body(body)
}

// The record at the head of the bytes, and the bytes behind it.
pub(crate) fn read_record(bytes: &[u8]) -> Result<(Record, &[u8]), Refusal>
    ensures { MatchResult result
        (λ found. (record_at bytes.now ≡ Ok found.0)
        × (found.1.now ≡ drop (record_length bytes.now) bytes.now))
        (λ fault. record_at bytes.now ≡ Err fault) }
{
    let [low, high, after @ ..] = bytes else {
        return Err(Refusal::BytesEndInRecord);
    };
    let length = usize::from(u16::from_le_bytes([*low, *high]));
    if after.len() < length {
        return Err(Refusal::BytesEndInRecord);
    }
    let (content, behind) = after.split_at(length);
    Ok((read_content(content)?, behind))
}
