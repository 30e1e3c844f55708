// A sink that writes the text of clauses into a lent buffer.
ghost use Rattle.std.specs.Prelude.{◌≡◌, refl, cond, [], ◌∷◌};
ghost use Rattle.std.proofs.Common.{◌∙◌};
ghost use Rattle.cnf.specs.Text.{literal_text, clause_text, clauses_text};
ghost use Rattle.clause_text.specs.Writing.{Writes};
ghost use Rattle.clause_text.specs.Laws.{writes_nothing, writes_more_clauses};

use crate::bytes::write_bytes;
use crate::decimal::write_decimal;
use cnf::{ClauseSink, Literal};

// Writes a minus before the number of a complemented literal.
fn write_sign(negated: bool, buffer: &mut [u8], place: usize) -> usize
    ensures { Writes (cond negated (45 ∷ []) []) buffer.old place buffer.new result }
{
    if negated {
        write_bytes(b"-", buffer, place)
    } else {
        place
    }
}

// Writes the literal behind a place, if there is room, and gives the place behind it.
fn write_literal(literal: &Literal, buffer: &mut [u8], place: usize) -> usize
    ensures { Writes (literal_text literal.now) buffer.old place buffer.new result }
{
    let number = write_sign(literal.negated, buffer, place);
    let space = write_decimal(literal.variable as u64, buffer, number);
    write_bytes(b" ", buffer, space)
}

// Writes the clause behind a place, if there is room, and gives the place behind it.
fn write_clause(clause: &[Literal], buffer: &mut [u8], place: usize) -> usize
    ensures { Writes (clause_text clause.now) buffer.old place buffer.new result }
{
    let mut behind = place;
    for literal in clause {
        behind = write_literal(literal, buffer, behind);
    }
    write_bytes(b"0\n", buffer, behind)
}

// A buffer, and the place in it behind which the next clause is written, if there is room.
#[derive(Drop)]
pub(crate) struct TextWriter<'a> {
    pub buffer: &'a mut [u8],
    pub place: usize,
}

impl<'a> ClauseSink for TextWriter<'a> {
    ghost took = { λ s cs t. (t.buffer.ghost_name ≡ s.buffer.ghost_name) × Writes (clauses_text cs) s.buffer.now s.place t.buffer.now t.place };

    fn take(&mut self, clause: &[Literal]) {
        self.place = write_clause(clause, self.buffer, self.place);
    }

    ghost took_nothing = { λ s. (refl, writes_nothing s.buffer.now s.place) };

    ghost took_more = { λ s t u xs ys first second. (second.0 ∙ first.0, writes_more_clauses xs ys s.buffer.now t.buffer.now u.buffer.now s.place t.place u.place first.1 second.1) };
}
