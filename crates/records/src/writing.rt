// A network written as a record.
ghost use Rattle.std.specs.Prelude.{◌≡◌, ℕ, ◌+◌, ◌^◌, ◌<◌, ◌≤◌, List, ◌∷◌, ◌++◌, length, Ok, IfOk};
ghost use Rattle.arrayvec.specs.ArrayVec.{array_vec_len};
ghost use Rattle.mig.specs.Networks.{net_of};
ghost use Rattle.mig.specs.Rules.{refused_by};
ghost use Rattle.records.specs.Parts.{part, parts_from};
ghost use Rattle.records.specs.Records.{record_at, record_length, record_of};
ghost use Rattle.records.specs.Records.{record_head, record_bytes, encode_refusal};

use arrayvec::ArrayVec;
use mig::{Limits, Network, Question, Refusal};

// The bytes behind those that stand.
fn append(written: &mut ArrayVec<u8, 33>, bytes: &[u8])
    requires { array_vec_len written.old + length bytes.now ≤ 33 }
    ensures { written.new.items ≡ written.old.items ++ bytes.now }
{
    for byte in bytes {
        written.push(*byte);
    }
}

// What stands before the codes: the length, the kind, the question, the lower number and the number
// of gates.
fn head(question: &Question, lower: u8, count: u8) -> [u8; 11]
    ensures { result ≡ record_head question.now lower count }
{
    let [length, length_high] = (10 + 3 * u16::from(count)).to_le_bytes();
    let [table, table_high, ..] = question.table.to_le_bytes();
    let Limits { depth, fan_out } = question.limits;
    [
        length,
        length_high,
        1,
        0,
        question.inputs,
        table,
        table_high,
        depth,
        fan_out,
        lower,
        count,
    ]
}

// The record of a network for a question, with a lower number. That of seven gates is the longest,
// of 33 bytes.
pub fn encode(
    question: &Question,
    lower: u8,
    network: &Network,
) -> Result<ArrayVec<u8, 33>, Refusal>
    ensures refused_by_the_rule { refused_by result ≡ encode_refusal network.now }
    ensures is_the_record { IfOk result (λ v.
        v.items ≡ record_bytes question.now lower (net_of network.now)) }
    // Whatever follows, the question and the network are read back, if the table has two bytes.
    ensures is_read_back { IfOk result (λ v. (more : List ℕ) → question.now.table < 2 ^ 16 →
        record_at (v.items ++ more) ≡ Ok (record_of question.now (net_of network.now))) }
    ensures has_the_record_length { IfOk result (λ v. (more : List ℕ) →
        record_length (v.items ++ more) ≡ length v.items) }
    // A reader that comes to the record gives it, and goes on behind it.
    ensures is_the_first_part { IfOk result (λ v. (place : ℕ) → (more : List ℕ) → question.now.table < 2 ^ 16 →
        parts_from place (v.items ++ more)
        ≡ part place (Ok (record_of question.now (net_of network.now)))
        ∷ parts_from (place + length v.items) more) }
{
    if network.count > 7 {
        return Err(Refusal::MalformedNetwork);
    }
    let mut written = ArrayVec::new();
    append(&mut written, &head(question, lower, network.count));
    for gate in network.gates() {
        append(&mut written, &[gate.first, gate.second, gate.third]);
    }
    written.push(network.output);
    Ok(written)
}
