// The events of a schedule, performed in order; what ends and what is refused goes into the log.
#![tactic(auto)]

ghost use Rattle.answers.specs.Said.{answer_says};
ghost use Rattle.loglines.specs.Lines.{line_of};
ghost use Rattle.play.specs.Play.{steps_of, event_of};
ghost use Rattle.play.specs.Parts.{Plays, at_place};

use answers::{Refusal, Why};
use loglines::Sheet;
use text::Event;

// kept: table, sheet and bound are lent apart, and play_events promises of each; a struct would be made for its two helpers alone.
fn play_steps(
    table: &mut [u16],
    sheet: &mut Sheet,
    count: u16,
    bound_nodes: Option<u16>,
) -> Result<(), Refusal>
    ensures { Plays sheet.old sheet.new (steps_of (line_of bound_nodes) count table.old) (answer_says result, table.new) }
{
    let mut left = count;
    // kept: a run takes several steps of the count, so no `for` goes over it
    while 0 < left {
        let ran = steps::run(table, left)?;
        match ran.why {
            Why::Ended(e) => {
                sheet.put_end(e, bound_nodes);
                left -= ran.steps;
            }
            Why::Spent => return Ok(()),
            Why::Idle => return Err(Refusal::Idle),
            Why::Damaged => return Err(Refusal::Damaged),
        }
    }
    Ok(())
}

fn play_event(
    table: &mut [u16],
    sheet: &mut Sheet,
    e: Event,
    bound_nodes: Option<u16>,
) -> Result<(), Refusal>
    ensures { Plays sheet.old sheet.new (event_of (line_of bound_nodes) e table.old) (answer_says result, table.new) }
{
    match e {
        Event::Enqueue(l, q, n) => begins::begin_enqueue(table, l, q, n),
        Event::Dequeue(l, q) => begins::begin_dequeue(table, l, q),
        Event::Steps(count) => play_steps(table, sheet, count, bound_nodes),
    }
}

// So many events of the text from place on. Beside the steps of an enqueue stands the bound on them in a table of so many nodes, if their
// number is given.
pub fn play_events(
    text: &[u8],
    place: usize,
    count: u16,
    table: &mut [u16],
    sheet: &mut Sheet,
    bound_nodes: Option<u16>,
)
    ensures { Plays sheet.old sheet.new (at_place (line_of bound_nodes) count 1 text.now place table.old) table.new }
{
    let mut at = place;
    for i in 0..count {
        let Ok((e, after)) = reader::event_at(text, at) else {
            return;
        };
        at = after;
        if let Err(r) = play_event(table, sheet, e, bound_nodes) {
            sheet.put_refusal(i + 1, r.into());
            return;
        }
    }
}
