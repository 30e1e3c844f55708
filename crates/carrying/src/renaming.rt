// A network with the codes of its nodes replaced.
ghost use Rattle.std.specs.Prelude.{◌≡◌, ℕ, ◌<◌, if◌then◌else◌, map};
ghost use Rattle.std.specs.List.{All};
ghost use Rattle.mig.specs.Networks.{net_of, network_of, node, GateBelow};
ghost use Rattle.mig.specs.Rules.{unless_refused, form_refusal};
ghost use Rattle.class_laws.specs.Renaming.{complement_by, rename, rename_gate, rename_net};
ghost use Rattle.carrying.specs.Renaming.{Replaces};

use checks::check_network;
use mig::{Gate, Network, Refusal};

// The code, complemented once more if `by` is odd.
fn complemented_by(by: u8, code: u8) -> u8
    ensures { result ≡ complement_by by code }
{
    code / 2 * 2 + (code % 2 + by % 2) % 2
}

// The code, where `code_of` gives the code that takes the place of its node: the complements add up.
fn renamed_code<F: Fn(u8) -> u8>(code_of: &F, code: u8) -> u8
    requires { F.pre code_of.now (node code) }
    ensures { (σ : ℕ → ℕ) → ((there : ℕ) → F.post code_of.now (node code) there → there ≡ σ (node code)) → result ≡ rename σ code }
{
    complemented_by(code, code_of(code / 2))
}

// Replaces each code of the gates.
// Like `map_codes` of crate normalise; both are private, since a public function over a closure has a precondition.
fn rename_gates<F: Fn(u8) -> u8>(code_of: &F, gates: &mut [Gate])
    requires callable { (j : ℕ) → j < 12 → F.pre code_of.now j }
    requires below { All (GateBelow 12) gates.old }
    ensures { (σ : ℕ → ℕ) → Replaces (F.post code_of.now) σ → gates.new ≡ map (rename_gate σ) gates.old }
{
    for gate in gates.iter_mut() {
        *gate = Gate {
            first: renamed_code(code_of, gate.first),
            second: renamed_code(code_of, gate.second),
            third: renamed_code(code_of, gate.third),
        };
    }
}

// The network over `inputs` inputs with each code replaced, and its output complemented once more if `flipped`.
pub(crate) fn renamed<F: Fn(u8) -> u8>(
    inputs: u8,
    network: &Network,
    flipped: bool,
    code_of: F,
) -> Result<Network, Refusal>
    requires { (j : ℕ) → j < 12 → F.pre code_of j }
    ensures { (σ : ℕ → ℕ) → Replaces (F.post code_of) σ → result ≡ unless_refused (form_refusal inputs network.now) (network_of (rename_net σ (if flipped then 1 else 0) (net_of network.now))) }
{
    check_network(inputs, network)?;
    let own = network.gates();
    // Lines of the library, as in two other crates: a public function would have to answer for eight gates too.
    let mut gates = [Gate::default(); 7];
    let front = &mut gates[..own.len()];
    front.copy_from_slice(own);
    rename_gates(&code_of, front);
    let output = renamed_code(&code_of, network.output);
    Ok(Network {
        count: network.count,
        gates,
        output: complemented_by(u8::from(flipped), output),
    })
}
