// Questions within bounds, and the columns that answer them.
ghost use Rattle.std.specs.Prelude.{◌≡◌, ◌-◌, ◌^◌, ◌<◌, ◌≤◌, Some, None, position, MatchResult};
ghost use Rattle.mig.specs.Questions.{Valid};
ghost use Rattle.mig.specs.Rules.{question_refusal};
ghost use Rattle.enumeration_laws.specs.Columns.{is_table, fitting_code};

use checks::check_question;
use mig::{Question, Refusal};
use value_kinds::{Column, ValueKind};

// A question within bounds, and the bits of its rows.
#[derive(Clone, Copy)]
pub(crate) struct ValidQuestion {
    pub(crate) question: Question,
    rows: u16,
    ghost valid: { Valid question },
    ghost all_rows: { rows ≡ 2 ^ (2 ^ question.inputs) - 1 },
}

// The bits of the rows over the inputs.
// Four private functions, in three crates, ask for `inputs ≤ 4`: a type that says so would be made at each public call.
fn row_mask(inputs: u8) -> u16
    requires { inputs ≤ 4 }
    ensures { result ≡ 2 ^ (2 ^ inputs) - 1 }
{
    match inputs {
        0 => 0x1,
        1 => 0x3,
        2 => 0xf,
        3 => 0xff,
        _ => 0xffff,
    }
}

impl TryFrom<Question> for ValidQuestion {
    type Error = Refusal;

    ghost try_from_gives = { λ question result. MatchResult result
        (λ asked. (asked.question ≡ question) × (question_refusal question ≡ None))
        (λ e. question_refusal question ≡ Some e) };

    fn try_from(question: Question) -> Result<ValidQuestion, Refusal> {
        check_question(&question)?;
        Ok(ValidQuestion {
            question,
            rows: row_mask(question.inputs),
        })
    }
}

impl ValidQuestion {
    // Whether the column is the table in the rows over the inputs.
    pub(crate) fn is_table(self, column: Column) -> bool
        ensures { result ≡ is_table self.question column }
    {
        u32::from(column.rows & self.rows) == self.question.table
    }

    // The place of the first column that is the table.
    pub(crate) fn position_of_table(self, columns: &[Column]) -> Option<usize>
        ensures { result ≡ position (is_table self.question) columns.now }
    {
        columns.iter().position(|column| self.is_table(*column))
    }

    // The code of the node, which has the column, under which it is the table.
    pub(crate) fn fitting_code(self, node: u8, column: Column) -> Option<u8>
        requires { node < 12 }
        ensures { result ≡ fitting_code self.question node column }
    {
        if self.is_table(column) {
            Some(2 * node)
        } else if self.is_table(column.complement()) {
            Some(2 * node + 1)
        } else {
            None
        }
    }
}
