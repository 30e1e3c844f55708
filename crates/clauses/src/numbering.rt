// The numbers of the variables.
ghost use Rattle.std.specs.Prelude.{◌≡◌, ℕ, suc, ◌-◌, ◌*◌, ◌^◌, ◌+◌, ◌<◌, ◌≤◌, length, IfOk};
ghost use Rattle.mig.specs.Rules.{refused_by};
ghost use Rattle.cnf.specs.Rules.{clauses_refusal};
ghost use Rattle.cnf.specs.Variables.{S, N, A, B, O, Q, H, K, uses_of};
ghost use Rattle.cnf.specs.Numbers.{total, counters, first_N, first_A, first_B, first_O, first_H, first_K, behind_all};

use checks::check_question;
use mig::{Question, Refusal};

// What the numbers of the variables of a question and a number of gates are computed from: what the question fixes, and
// the first number of each kind of variable.
#[derive(Drop)]
pub struct Numbering {
    pub inputs: u8,
    pub gates: u8,
    pub(crate) rows: u8,
    pub(crate) depth: u8,
    pub(crate) fan_out: u8,
    complements: u32,
    fan_in_values: u32,
    gate_values: u32,
    outputs: u32,
    levels: u32,
    counters: u32,
    ghost few_inputs: { inputs ≤ 4 },
    ghost few_gates: { gates ≤ 7 },
    ghost row_for_each_input: { rows ≡ 2 ^ inputs },
    ghost few_rows: { rows ≤ 16 },
    ghost shallow: { depth ≤ 7 },
    ghost some_fan_out: { 1 ≤ fan_out },
    ghost light: { fan_out ≤ 19 },
    ghost complements_first: { complements ≡ first_N inputs gates },
    ghost fan_in_values_first: { fan_in_values ≡ first_A inputs gates },
    ghost gate_values_first: { gate_values ≡ first_B inputs gates },
    ghost outputs_first: { outputs ≡ first_O inputs gates },
    ghost levels_first: { levels ≡ first_H inputs gates },
    ghost counters_first: { counters ≡ first_K inputs depth gates },
    ghost small: { counters < 2000000 },
}

// How many gates stand before a node, over a number of inputs.
fn gates_before(inputs: u8, node: u8) -> u32
    ensures value { result ≡ node - suc inputs }
    ensures bound { result ≤ 255 }
{
    u32::from(node).saturating_sub(u32::from(inputs) + 1)
}

// Three times the sum of the nodes of the gates before a node: how many variables S these gates have.
#[tactic(auto, using(cnf_laws::proofs::Each::total_of_triples))]
fn triples_before(inputs: u8, node: u8) -> u32
    ensures value { result ≡ total (suc inputs) (node - suc inputs) (λ x. 3 * x) }
    ensures bound { result < 1000000 }
{
    let gates = gates_before(inputs, node);
    3 * (gates * (2 * u32::from(inputs) + 1 + gates)) / 2
}

impl Numbering {
    ghost use Rattle.clauses.specs.Numbering.{numbered_by};

    // The numbering for a question and a number of gates, unless it is refused.
    pub fn new(question: &Question, gates: u8) -> Result<Numbering, Refusal>
        ensures refused_by_the_rule { refused_by result ≡ clauses_refusal question.now gates }
        ensures of_the_question { IfOk result (λ e. (e.inputs ≡ question.now.inputs) × (e.gates ≡ gates)
            × (e.depth ≡ question.now.limits.depth) × (e.fan_out ≡ question.now.limits.fan_out)) }
    {
        check_question(question)?;
        if gates > 7 {
            return Err(Refusal::GatesAboveReach);
        }
        let inputs = question.inputs;
        let depth = question.limits.depth;
        let rows = 1 << inputs;
        let complements = 1 + triples_before(inputs, inputs + 1 + gates);
        let fan_in_values = complements + 3 * u32::from(gates);
        let gate_values = fan_in_values + 3 * u32::from(gates) * u32::from(rows);
        let outputs = gate_values + u32::from(gates) * u32::from(rows);
        let levels = outputs + u32::from(inputs + 1 + gates) + 1;
        Ok(Numbering {
            inputs,
            gates,
            rows,
            depth,
            fan_out: question.limits.fan_out,
            complements,
            fan_in_values,
            gate_values,
            outputs,
            levels,
            counters: levels + u32::from(gates) * (u32::from(depth) + 1),
        })
    }

    // The number of S(i, c, j): fan-in c of gate i is the node j.
    #[tactic(auto, unfolding(cnf::specs::Numbers::number))]
    pub fn fan_in_is(&self, gate: u8, fan_in: u8, node: u8) -> u32
        ensures { result ≡ numbered_by self.now (S gate fan_in node) }
    {
        let fan_ins_before = u32::from(fan_in.saturating_sub(1));
        1 + triples_before(self.inputs, gate) + fan_ins_before * u32::from(gate) + u32::from(node)
    }

    // How many fan-ins of gates stand before a fan-in of a gate.
    fn fan_ins_before(&self, gate: u8, fan_in: u8) -> u32
        ensures value { result ≡ 3 * (gate - suc self.now.inputs) + (fan_in - 1) }
        ensures bound { result ≤ 1020 }
    {
        3 * gates_before(self.inputs, gate) + u32::from(fan_in.saturating_sub(1))
    }

    // The number of N(i, c): fan-in c of gate i is complemented.
    #[tactic(auto, unfolding(cnf::specs::Numbers::number))]
    pub fn fan_in_complemented(&self, gate: u8, fan_in: u8) -> u32
        ensures { result ≡ numbered_by self.now (N gate fan_in) }
    {
        self.complements + self.fan_ins_before(gate, fan_in)
    }

    // The number of A(i, c, t): the value of fan-in c of gate i in row t.
    #[tactic(auto, unfolding(cnf::specs::Numbers::number))]
    pub(crate) fn fan_in_value(&self, gate: u8, fan_in: u8, row: u8) -> u32
        ensures { result ≡ numbered_by self.now (A gate fan_in row) }
    {
        self.fan_in_values
            + self.fan_ins_before(gate, fan_in) * u32::from(self.rows)
            + u32::from(row)
    }

    // The number of B(i, t): the value of gate i in row t.
    #[tactic(auto, unfolding(cnf::specs::Numbers::number))]
    pub fn gate_value(&self, gate: u8, row: u8) -> u32
        ensures { result ≡ numbered_by self.now (B gate row) }
    {
        self.gate_values + gates_before(self.inputs, gate) * u32::from(self.rows) + u32::from(row)
    }

    // The number of O(j): the output is the node j.
    #[tactic(auto, unfolding(cnf::specs::Numbers::number))]
    pub fn output_is(&self, node: u8) -> u32
        ensures { result ≡ numbered_by self.now (O node) }
    {
        self.outputs + u32::from(node)
    }

    // The number of Q: the output is complemented.
    #[tactic(auto, unfolding(cnf::specs::Numbers::number))]
    pub fn output_complemented(&self) -> u32
        ensures { result ≡ numbered_by self.now Q }
    {
        self.output_is(self.inputs + 1 + self.gates)
    }

    // The number of H(i, d): the level of gate i exceeds d.
    #[tactic(auto, unfolding(cnf::specs::Numbers::number))]
    pub(crate) fn level_exceeds(&self, gate: u8, level: u8) -> u32
        ensures { result ≡ numbered_by self.now (H gate level) }
    {
        self.levels
            + gates_before(self.inputs, gate) * (u32::from(self.depth) + 1)
            + u32::from(level)
    }

    // How many uses a gate can have: three by each later gate, and one by the output.
    #[tactic(auto, using(cnf_laws::proofs::Each::length_uses))]
    pub(crate) fn uses(&self, gate: u8) -> u8
        ensures count { result ≡ length (uses_of self.now.inputs self.now.gates gate) }
        ensures bound { result ≤ 34 }
    {
        3 * (self.inputs + self.gates).saturating_sub(gate) + 1
    }

    // How many variables K a gate has.
    fn counters_of(&self, gate: u8) -> u32
        ensures count { result ≡ counters self.now.inputs self.now.fan_out self.now.gates gate }
        ensures bound { result ≤ 646 }
    {
        let uses = self.uses(gate);
        if uses > self.fan_out {
            u32::from(uses) * u32::from(self.fan_out)
        } else {
            0
        }
    }

    // The number of the first variable K of a gate, if it has one.
    #[tactic(auto, using(cnf_laws::proofs::Each::total_more), unfolding(cnf::specs::Numbers::total))]
    pub(crate) fn first_counter(&self, gate: u8) -> u32
        requires { suc self.now.inputs ≤ gate }
        ensures bound { result < 3000000 }
        ensures number { result ≡
            first_K self.now.inputs self.now.depth self.now.gates
            + total (suc self.now.inputs) (gate - suc self.now.inputs) (counters self.now.inputs self.now.fan_out self.now.gates) }
    {
        let mut first = self.counters;
        for earlier in self.inputs + 1..gate {
            first += self.counters_of(earlier);
        }
        first
    }

    // The number of K(j, k, q): at least q of the first k uses of gate j hold. The first K of the gate has the number
    // `first`.
    #[tactic(auto, unfolding(cnf::specs::Numbers::number))]
    pub(crate) fn uses_at_least(&self, first: u32, place: u8, count: u8) -> u32
        requires { first < 3000000 }
        ensures { (j : ℕ) → first ≡ first_K self.now.inputs self.now.depth self.now.gates + total (suc self.now.inputs) (j - suc self.now.inputs) (counters self.now.inputs self.now.fan_out self.now.gates)
            → result ≡ numbered_by self.now (K j place count) }
    {
        first
            + u32::from(place.saturating_sub(1)) * u32::from(self.fan_out)
            + u32::from(count.saturating_sub(1))
    }
}
