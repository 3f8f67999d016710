//! What is shown and not kept, told as a report.
ghost use Rattle.std.specs.Prelude.{◌≡◌, ◌≤◌, ◌*◌, ◌+◌, [], ⊤};
ghost use Rattle.tree_handles.specs.Standing.{Stands, forest};
ghost use Rattle.calc_session.specs.Answers.{Tells};
ghost use Rattle.calc_session.specs.Forms.{solution_room};
ghost use Rattle.calc_session.specs.Telling.{HasFace};

use crate::LineAnswer;
use crate::estimating::write_finding;
use crate::evaluating::Evaluation;
use crate::text::write_undef;
use line_text::{Text, write_text};
use node_pool::Pool;

/// Writes the text of what an evaluation shows. The text of a refusal is still to be written.
pub fn tell(pool: &Pool, text: &mut Text, evaluation: Evaluation) -> LineAnswer
    requires stands { Stands pool.now }
    requires face { HasFace (forest pool.now) evaluation }
    requires empty { text.old.bytes ≡ [] }
    requires room { text.old.capacity ≡ 3 * pool.now.size + solution_room }
    ensures told { Tells pool.now evaluation result text.new.bytes }
    ensures capacity { text.new.capacity ≡ text.old.capacity }
{
    match evaluation {
        Evaluation::Face(face) => {
            write_text(pool, face.id(), text);
            LineAnswer::Report
        }
        Evaluation::Undefined => {
            write_undef(text);
            LineAnswer::Report
        }
        Evaluation::Found(finding) => {
            write_finding(&finding, text);
            LineAnswer::Report
        }
        Evaluation::Refused(refusal) => LineAnswer::Refused(refusal),
    }
}
