// A task: sizes and at most six operations, told by a schedule's text that has E and D lines only.
#![tactic(auto)]

ghost use Rattle.std.specs.Prelude.{◌≡◌, ◌+◌, ◌≤◌};
ghost use Rattle.std.proofs.lemmas.List.Edits.{sets};
ghost use Rattle.heads.specs.Put.{Put};
ghost use Rattle.tasks.specs.Tasks.{operation_reading, words_of, task_says, task_of};
ghost use Rattle.tasks.specs.Parts.{words_from};
ghost use Rattle.tasks.specs.declared.TaskError.TheVariants.{Line};

use schedule::Events;
use text::{BadLine, Event, Opening};

// Why a text is no task.
#[derive(Clone, Copy, PartialEq, Eq, Debug)]
pub enum TaskError {
    // 13: the first line that is wrong.
    Line(BadLine),
    // 14: more than six operations.
    TooMany,
}

impl From<BadLine> for TaskError {
    ghost from_gives = { λ bad e. e ≡ Line bad };

    fn from(bad: BadLine) -> TaskError {
        TaskError::Line(bad)
    }
}

// The words of six operations.
pub const WORDS: usize = 24;

// What a task has: the operations, and no steps.
struct Operations;

impl Events for Operations {
    ghost reading = { operation_reading };

    #[tactic(auto, unfolding(crate::specs::Tasks::operation_reading, text::specs::Reading::line_answer))]
    fn event_at(text: &[u8], place: usize) -> Result<(Event, usize), BadLine> {
        match reader::event_at(text, place)? {
            (Event::Steps(_), _) => Err(BadLine(text::line_at(text, place))),
            operation => Ok(operation),
        }
    }
}

// Writes the words of an operation at a place, and answers the place after them.
// kept: its kind as the number 1 or 2, as the calls for C take operations as such words (`words_of`).
#[tactic(auto, using(crate::specs::Laws::put_four), unfolding(crate::specs::Tasks::words_of))]
fn put_operation(ops: &mut [u16; WORDS], at: usize, e: Event) -> usize
    requires { at + 4 ≤ 24 }
    ensures { Put result ops.new ops.old at (words_of e) }
{
    let words = match e {
        Event::Enqueue(l, q, n) => [1, l.0, q.0, n.0],
        Event::Dequeue(l, q) => [2, l.0, q.0, 0],
        Event::Steps(_) => return at,
    };
    ops[at..at + 4].copy_from_slice(&words);
    at + 4
}

// Writes the words of so many operations from place on.
#[tactic(auto, using(crate::specs::Laws::words), unfolding(text::specs::Reading::line_answer))]
fn put_operations(text: &[u8], place: usize, count: u16, ops: &mut [u16; WORDS])
    requires { count ≤ 6 }
    ensures { ops.new ≡ sets ops.old 0 (words_from count text.now place) }
{
    let mut at = place;
    let mut n = 0;
    for _ in 0..count {
        // it can be read: the text is right
        let Ok((e, next)) = reader::event_at(text, at) else {
            return;
        };
        n = put_operation(ops, n, e);
        at = next;
    }
}

// Reads a task's text: its operations stand at the start of the words, four each; nothing is written where it is refused.
#[tactic(auto, using(crate::specs::Laws::whole), unfolding(text::specs::Reading::line_answer, crate::specs::Tasks::task_says))]
pub fn read_task(text: &[u8], ops: &mut [u16; WORDS]) -> Result<Opening, TaskError>
    ensures { task_of text.now ops.old ≡ (task_says result, ops.new) }
{
    let (opening, place) = schedule::check::<Operations>(text)?;
    if 6 < opening.events {
        return Err(TaskError::TooMany);
    }
    put_operations(text, place, opening.events, ops);
    Ok(opening)
}
