// Schedule text: the sizes, an event and the end, read at a place.
#![tactic(auto)]

ghost use Rattle.std.specs.Prelude.{◌≡◌, ◌==◌, ◌&&◌, eqb, ◌≤◌, count_by, length, take};
ghost use Rattle.heads.specs.Heads.{stands_at};
ghost use Rattle.text.specs.Text.{head_sizes, lf};
ghost use Rattle.text.specs.Reading.{
  lfs,
  line_at,
  line_starts,
  enqueue_in,
  dequeue_in,
  steps_in,
  event_in,
  number_at,
  sizes_reading,
  event_reading,
  end_reading,
  line_answer,
};

use words::{Level, Node, Queue};

#[derive(Clone, Copy)]
pub enum Event {
    Enqueue(Level, Queue, Node),
    Dequeue(Level, Queue),
    Steps(u16),
}

// The sizes L, Q and N, and the count of events.
#[derive(Clone, Copy, PartialEq, Eq, Debug)]
pub struct Opening {
    pub levels: u16,
    pub queues: u16,
    pub nodes: u16,
    pub events: u16,
}

// Refusal 13: the line that is wrong, the text's first line being line 1, or 0 where the text is too long.
#[derive(Clone, Copy, PartialEq, Eq, Debug)]
pub struct BadLine(pub usize);

// kept: a text and a place as two parameters of what reads here, and in heads, decimals, schedule, play, logs and tasks. `reader::Reader` is
// the struct of both, and calls these. A struct below it would be no plainer, as each place here is where the field before it ended.

pub const SPACE: u8 = b' ';

pub const LF: u8 = b'\n';

pub const LONGEST: usize = 65536;

fn count_lfs(s: &[u8]) -> usize
    ensures { result ≡ count_by (λ b. b == lf) s.now }
{
    s.iter().filter(|b| **b == LF).count()
}

// How many lines end before place.
fn lines_before(text: &[u8], place: usize) -> usize
    ensures { (result ≡ lfs (take place text.now)) × (result ≤ length text.now) }
{
    count_lfs(&text[..place.min(text.len())])
}

// kept: line 0 for a text that is too long is promised (line_at, docs/SCHEDULE.md).
#[tactic(auto, using(std::proofs::lemmas::Bool::Decides::nat_tests), unfolding(crate::specs::Reading::line_at))]
pub fn line_at(text: &[u8], place: usize) -> usize
    ensures { result ≡ line_at text.now place }
{
    if text.len() <= LONGEST {
        1 + lines_before(text, place)
    } else {
        0
    }
}

#[tactic(auto, using(crate::specs::Laws::starts), unfolding(crate::specs::Reading::line_starts))]
fn line_starts(text: &[u8], place: usize) -> bool
    ensures { result ≡ line_starts text.now place }
{
    text.len() <= LONGEST && (place == 0 || place <= text.len() && text[place - 1] == LF)
}

#[tactic(auto, unfolding(crate::specs::Reading::enqueue_in))]
fn enqueue_in(text: &[u8], at: usize) -> Option<(Event, usize)>
    ensures { result ≡ enqueue_in text.now at }
{
    let (l, queue) = decimals::read_field(text, at, SPACE)?;
    let (q, node) = decimals::read_field(text, queue, SPACE)?;
    let (n, next) = decimals::read_field(text, node, LF)?;
    Some((Event::Enqueue(Level(l), Queue(q), Node(n)), next))
}

#[tactic(auto, unfolding(crate::specs::Reading::dequeue_in))]
fn dequeue_in(text: &[u8], at: usize) -> Option<(Event, usize)>
    ensures { result ≡ dequeue_in text.now at }
{
    let (l, queue) = decimals::read_field(text, at, SPACE)?;
    let (q, next) = decimals::read_field(text, queue, LF)?;
    Some((Event::Dequeue(Level(l), Queue(q)), next))
}

#[tactic(auto, using(std::proofs::lemmas::Bool::Decides::nat_tests), unfolding(crate::specs::Reading::steps_in))]
fn steps_in(text: &[u8], at: usize) -> Option<(Event, usize)>
    ensures { result ≡ steps_in text.now at }
{
    let (count, next) = decimals::read_field(text, at, LF)?;
    (1 <= count).then_some((Event::Steps(count), next))
}

// The event of a line that starts at a place, with the place after the line.
fn event_in(text: &[u8], place: usize) -> Option<(Event, usize)>
    requires { place ≤ length text.now }
    ensures { result ≡ event_in text.now place }
{
    match &text[place..] {
        [b'E', SPACE, ..] => enqueue_in(text, place + 2),
        [b'D', SPACE, ..] => dequeue_in(text, place + 2),
        [b'S', SPACE, ..] => steps_in(text, place + 2),
        _ => None,
    }
}

fn opens(text: &[u8]) -> bool
    ensures { result ≡ (line_starts text.now 0 && stands_at head_sizes text.now 0) }
{
    line_starts(text, 0) && heads::stands_at(text, 0, b"3\n")
}

fn ends_at(text: &[u8], place: usize) -> bool
    ensures { result ≡ (line_starts text.now place && eqb place (length text.now)) }
{
    line_starts(text, place) && place == text.len()
}

// A number that fills the rest of its line, with the next place.
#[tactic(auto, unfolding(crate::specs::Reading::number_at))]
fn number_line(text: &[u8], place: usize) -> Result<(u16, usize), BadLine>
    ensures { result ≡ number_at text.now place }
{
    decimals::read_field(text, place, LF).ok_or_else(|| BadLine(line_at(text, place)))
}

// The first five lines: `3`, L, Q, N and the count of events; with the next place.
#[tactic(auto, unfolding(crate::specs::Reading::sizes_reading, crate::specs::Reading::line_answer, crate::specs::Reading::number_at))]
pub fn read_sizes(text: &[u8]) -> Result<(Opening, usize), BadLine>
    ensures { line_answer result ≡ sizes_reading text.now }
{
    if !opens(text) {
        return Err(BadLine(line_at(text, 0)));
    }
    let (levels, second) = number_line(text, 2)?;
    let (queues, third) = number_line(text, second)?;
    let (nodes, fourth) = number_line(text, third)?;
    let (events, next) = number_line(text, fourth)?;
    let opening = Opening {
        levels,
        queues,
        nodes,
        events,
    };
    Ok((opening, next))
}

// The event at a place, with the next place.
#[tactic(auto, using(crate::specs::Laws::starts), unfolding(crate::specs::Reading::event_reading, crate::specs::Reading::line_answer))]
pub fn read_event(text: &[u8], place: usize) -> Result<(Event, usize), BadLine>
    ensures { line_answer result ≡ event_reading text.now place }
{
    if !line_starts(text, place) {
        return Err(BadLine(line_at(text, place)));
    }
    event_in(text, place).ok_or_else(|| BadLine(line_at(text, place)))
}

#[tactic(auto, unfolding(crate::specs::Reading::end_reading, crate::specs::Reading::line_answer))]
pub fn read_end(text: &[u8], place: usize) -> Result<(), BadLine>
    ensures { line_answer result ≡ end_reading text.now place }
{
    if ends_at(text, place) {
        Ok(())
    } else {
        Err(BadLine(line_at(text, place)))
    }
}
