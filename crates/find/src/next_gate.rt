// A gate behind a prefix: as the last one, or as one of several.
ghost use Rattle.std.specs.Prelude.{◌≡◌, ◌+◌, ◌*◌, ◌<◌, ◌≤◌, [], ◌∷◌, ◌++◌, set, MatchOption};
ghost use Rattle.mig.specs.Networks.{network_of, GateBelow};
ghost use Rattle.mig.specs.Questions.{Meets};
ghost use Rattle.value_kinds.specs.Kinds.{columns as kind};
ghost use Rattle.enumeration_laws.specs.Columns.{gate_column};
ghost use Rattle.enumeration_laws.specs.Placed.{placed};
ghost use Rattle.enumeration_laws.specs.Prefixes.{with_gate, NoneEndsWith};

use crate::columns::gate_column;
use crate::limits::within_limits;
use crate::prefix::Prefix;
use mig::{Gate, Network};
use value_kinds::{Column, ValueKind};

// A gate that may stand behind a prefix, and its column.
#[derive(Clone, Copy)]
pub(crate) struct NextGate<'a> {
    prefix: &'a Prefix,
    gate: Gate,
    column: Column,
    ghost few: { prefix.now.network.count < 4 },
    ghost column_of_gate: { column ≡ gate_column prefix.now.asked.question.inputs (placed prefix.now.network) gate },
}

impl Prefix {
    // The gate, behind the prefix.
    pub(crate) fn next_gate(&self, gate: Gate) -> NextGate<'_>
        requires few { self.now.network.count < 4 }
        requires below { GateBelow (self.now.asked.question.inputs + 1 + self.now.network.count) gate }
        ensures { (result.prefix.now ≡ self.now) × (result.gate ≡ gate) }
    {
        NextGate {
            prefix: self,
            gate,
            column: gate_column(&self.columns, gate),
        }
    }
}

impl NextGate<'_> {
    // The node of the gate.
    fn node(&self) -> u8
        ensures { result ≡ self.now.prefix.now.asked.question.inputs + 1 + self.now.prefix.now.network.count }
    {
        self.prefix.nodes().count()
    }

    // The network of the prefix and the gate, with an output.
    // By a rule of the project a network is seven gate places and a count, so the gate goes into the first free place.
    pub(crate) fn with_output(&self, output: u8) -> Network
        ensures { result ≡ network_of (with_gate (placed self.now.prefix.now.network) self.now.gate output) }
    {
        let mut network = self.prefix.network;
        network.gates[usize::from(network.count)] = self.gate;
        network.count += 1;
        network.output = output;
        network
    }

    // The code of the output under which the prefix and the gate, as the last one, meet the question, if there is one.
    pub(crate) fn fitting_output(&self) -> Option<u8>
        ensures { let question = self.now.prefix.now.asked.question in
            let before = placed self.now.prefix.now.network in
            MatchOption result (NoneEndsWith question before self.now.gate)
            (λ output. Meets question (with_gate before self.now.gate output)) }
    {
        let asked = &self.prefix.asked;
        let output = asked.fitting_code(self.node(), self.column)?;
        let question = asked.question;
        within_limits(question.inputs, question.limits, &self.with_output(output)).then_some(output)
    }

    // The columns with those of the two codes of the gate.
    fn columns(&self) -> [Column; 24]
        ensures { let prefix = self.now.prefix.now in
            let code = 2 * (prefix.asked.question.inputs + 1 + prefix.network.count) in
            result ≡ set (set prefix.columns code self.now.column) (code + 1) (kind.complement self.now.column) }
    {
        let code = 2 * usize::from(self.node());
        let mut columns = self.prefix.columns;
        columns[code] = self.column;
        columns[code + 1] = self.column.complement();
        columns
    }

    // The prefix with the gate.
    pub(crate) fn placed(&self) -> Prefix
        ensures question { result.asked ≡ self.now.prefix.now.asked }
        ensures gates { placed result.network ≡ placed self.now.prefix.now.network ++ self.now.gate ∷ [] }
        ensures count { result.network.count ≡ self.now.prefix.now.network.count + 1 }
    {
        Prefix {
            asked: self.prefix.asked,
            network: self.with_output(2 * self.node()),
            columns: self.columns(),
        }
    }
}
