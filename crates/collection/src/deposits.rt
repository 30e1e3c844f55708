// Deposits.
ghost use Rattle.std.specs.Prelude.{◌≡◌, IfOk, MatchResult};
ghost use Rattle.mig.specs.Networks.{net_of, size};
ghost use Rattle.mig.specs.Rules.{refused_by};
ghost use Rattle.entries.specs.Rows.{table};
ghost use Rattle.collection_laws.specs.Calls.{deposits_refusal, Deposits};

use crate::collection::Collection;
use filing::carry_in;
use mig::{Network, Question, Refusal};

impl<S> Collection<S> {
    // A deposit: the network is kept in place of one with more gates. The lower number stays: a network that was brought is no
    // proof that there is none smaller. It answers the gates of the network; the way of carrying is left open.
    pub fn deposit(&mut self, question: &Question, network: &Network) -> Result<u8, Refusal>
        ensures refused_by_the_rule { refused_by result ≡ deposits_refusal question.now network.now (table self.old.entries) }
        ensures answers_the_gates { IfOk result (λ gates. gates ≡ size (net_of network.now)) }
        ensures search_stays { self.new.search ≡ self.old.search }
        ensures deposited_by_the_rule { MatchResult result (λ _. Deposits question.now network.now (table self.old.entries) (table self.new.entries)) (λ _. self.new ≡ self.old) }
    {
        let filed = carry_in(question, network)?;
        self.entries.deposit(filed)?;
        Ok(filed.network.count)
    }
}
