// What carries out commands: it holds one collection, and a buffer that exports, clause texts and assignments are written to.
use assignment_reader::read_assignment;
use assignment_writer::write_assignment;
use bound_layer::BoundLayer;
use clause_search::ClauseSearch;
use clause_text::clause_text;
use collection::Collection;
use collection_laws::{Answer, Call, Opening};
use enumeration::Enumeration;
use mig::{Network, Question, Refusal};
use runs::{open, run};
use search::Search;
use split_search::Split;

// The search that is delivered.
type Delivered = BoundLayer<Split<Enumeration, ClauseSearch>>;

fn delivered() -> Delivered {
    BoundLayer::new(Split::new(Enumeration::new(), ClauseSearch::new()))
}

// How many work words the search that is delivered needs.
const WORK_WORDS: usize = 131072;

// The longest clause text has fewer bytes, and so has every export: at most 64 records of seven gates.
const BUFFER_BYTES: usize = 1 << 18;

#[derive(Drop)]
pub(crate) struct Interpreter {
    collection: Collection<Delivered>,
    words: [u32; WORK_WORDS],
    buffer: [u8; BUFFER_BYTES],
}

impl Interpreter {
    pub(crate) fn new() -> Interpreter {
        Interpreter {
            collection: open(delivered(), Opening::Empty),
            words: [0; WORK_WORDS],
            buffer: [0; BUFFER_BYTES],
        }
    }

    // Begins a new collection; how many entries it has.
    pub(crate) fn open(&mut self, opening: Opening) -> usize {
        self.collection = open(delivered(), opening);
        self.collection.len()
    }

    // Makes one call of the collection.
    pub(crate) fn call(&mut self, call: Call) -> Result<Answer, Refusal> {
        let mut replies = [Ok(Answer::Struck)];
        run(
            &mut self.collection,
            &[call],
            &mut replies,
            &mut self.words,
            &mut self.buffer,
        );
        replies[0]
    }

    // Writes the clauses of a question and a number of gates to the buffer; how many bytes that are.
    pub(crate) fn clause_text(&mut self, question: &Question, gates: u8) -> Result<usize, Refusal> {
        clause_text(question, gates, &mut self.buffer)
    }

    // Writes the assignment of a network to the buffer, a digit for each variable; how many digits that are.
    pub(crate) fn assignment(
        &mut self,
        question: &Question,
        gates: u8,
        network: &Network,
    ) -> Result<usize, Refusal> {
        let variables = write_assignment(question, gates, network, &mut self.buffer)?;
        for byte in self.buffer.iter_mut().take(variables) {
            *byte = b'0'.saturating_add(*byte);
        }
        Ok(variables)
    }

    // The network that an assignment tells, which is given by a digit for each variable.
    pub(crate) fn network(
        &mut self,
        question: &Question,
        gates: u8,
        digits: &str,
    ) -> Result<Network, Refusal> {
        for (byte, digit) in self.buffer.iter_mut().zip(digits.bytes()) {
            *byte = digit.saturating_sub(b'0');
        }
        read_assignment(question, gates, self.written(digits.len()))
    }

    // The first bytes of the buffer.
    pub(crate) fn written(&self, bytes: usize) -> &[u8] {
        &self.buffer[..bytes.min(BUFFER_BYTES)]
    }

    // A network of at most `gates` gates that meets the question, none if there is none.
    pub(crate) fn ask(
        &mut self,
        question: &Question,
        gates: u8,
    ) -> Result<Option<Network>, Refusal> {
        let mut place = Network::default();
        let found = delivered().ask(question, gates, &mut place, &mut self.words)?;
        Ok(found.then_some(place))
    }
}
