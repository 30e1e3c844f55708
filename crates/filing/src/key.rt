// The key of a question: what it is filed under.
ghost use Rattle.std.specs.Prelude.{◌≡◌, IfOk};
ghost use Rattle.mig.specs.Questions.{Valid};
ghost use Rattle.mig.specs.Rules.{unless_refused, question_refusal};
ghost use Rattle.class_laws.specs.Classes.{SameMinimum};
ghost use Rattle.filing.specs.Filing.{key_of, key_question};

use checks::check_question;
use classes::representative;
use mig::{Limits, Question, Refusal};

// The representative of a table, and limits. Keys stand in order by the representative, then by the limits.
#[derive(Clone, Copy, Debug, PartialEq, Eq, PartialOrd, Ord)]
pub struct Key {
    pub table: u16,
    pub limits: Limits,
}

impl Key {
    // The key of a question.
    pub fn of(question: &Question) -> Result<Key, Refusal>
        ensures answer { result ≡ unless_refused (question_refusal question.now) (key_of question.now) }
        ensures is_within_bounds { IfOk result (λ k. Valid (key_question k)) }
        ensures shares_the_minimum { IfOk result (λ k. SameMinimum question.now.inputs question.now.table 4 k.table) }
    {
        check_question(question)?;
        Ok(Key {
            table: representative(question.inputs, question.table)?,
            limits: question.limits,
        })
    }

    // The question of the class: the representative over four inputs, under the limits.
    pub fn question(self) -> Question
        ensures { result ≡ key_question self }
    {
        Question {
            inputs: 4,
            table: u32::from(self.table),
            limits: self.limits,
        }
    }
}
