//! Finds the identifiers that a question asks for.

ghost use Rattle.std.specs.Prelude.{IfOk};
ghost use Rattle.history_model.specs.History.{rows_at};
ghost use Rattle.history_model.specs.Lists.{listed};
ghost use Rattle.question_model.specs.Questions.{id_question_of};
ghost use Rattle.question_model.specs.Wanted.{AreIdsFor};

use as_of_index::AsOf;
use links::{ancestors, children, descendants, sources};
use question_model::IdQuestion;
use segment_index::StoreIndex;
use std::alloc::{AllocError, Global};

/// The identifiers that a question finds in the rows that the first `pin` imports brought. Reads no
/// row.
pub fn ids(
    alloc: Global,
    index: &StoreIndex,
    question: &IdQuestion,
    pin: u32,
) -> Result<Vec<u64>, AllocError>
    // promise: an_answer_is_the_defined_one
    ensures { IfOk result (λ ids. AreIdsFor (id_question_of question.now) (rows_at pin (listed index.now.lists))
        ids.items) }
{
    let places = index.places();
    let links = index.links();
    match *question {
        IdQuestion::Children { concept, date } => {
            children(alloc, links, places, concept, AsOf { date, pin })
        }
        IdQuestion::Ancestors { concept, date } => {
            ancestors(alloc, links, places, concept, AsOf { date, pin })
        }
        IdQuestion::Descendants { concept, date } => {
            descendants(alloc, links, places, concept, AsOf { date, pin })
        }
        IdQuestion::Sources {
            type_id,
            destination,
            date,
            after,
            limit,
        } => {
            let as_of = AsOf { date, pin };
            sources(
                alloc,
                links,
                places,
                type_id,
                destination,
                as_of,
                after,
                limit,
            )
        }
    }
}
