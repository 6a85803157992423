// A whole schedule text, read from its first line to its end.
#![tactic(auto)]

ghost use Rattle.std.specs.Prelude.{◌≡◌, ℕ, List};
ghost use Rattle.text.specs.Answer.{Answer};
ghost use Rattle.text.specs.Reading.{event_reading, line_answer};
ghost use Rattle.text.specs.declared.Event.{Event};
ghost use Rattle.schedule.specs.Whole.{rest_by, check_by, check_reading};

use text::{BadLine, Event, Opening};

// Which events a text may have: how the one at a place is read.
pub trait Events {
    ghost reading: { List ℕ → ℕ → Answer (Event × ℕ) };

    fn event_at(text: &[u8], place: usize) -> Result<(Event, usize), BadLine>
        ensures { line_answer result ≡ reading text.now place };
}

// All that a schedule has.
struct Any;

impl Events for Any {
    ghost reading = { event_reading };

    fn event_at(text: &[u8], place: usize) -> Result<(Event, usize), BadLine> {
        reader::event_at(text, place)
    }
}

// So many events from place on, and then the end.
// kept: text, place and count: an opening has the count, and the place is read_sizes' other answer; a struct would be made for this call
// alone.
#[tactic(auto, using(crate::specs::Laws::rests), unfolding(text::specs::Reading::line_answer))]
fn read_rest<E: Events>(text: &[u8], place: usize, count: u16) -> Result<(), BadLine>
    ensures { line_answer result ≡ rest_by E.reading count text.now place }
{
    let mut at = place;
    for _ in 0..count {
        (_, at) = E::event_at(text, at)?;
    }
    text::read_end(text, at)
}

// The sizes of a text that is right to its end, with the place of its first event; or the first line that is wrong.
#[tactic(auto, unfolding(crate::specs::Whole::check_by, text::specs::Reading::line_answer))]
pub fn check<E: Events>(text: &[u8]) -> Result<(Opening, usize), BadLine>
    ensures { line_answer result ≡ check_by E.reading text.now }
{
    let (opening, place) = text::read_sizes(text)?;
    read_rest::<E>(text, place, opening.events)?;
    Ok((opening, place))
}

// The same of a schedule.
pub fn check_text(text: &[u8]) -> Result<(Opening, usize), BadLine>
    ensures { line_answer result ≡ check_reading text.now }
{
    check::<Any>(text)
}
