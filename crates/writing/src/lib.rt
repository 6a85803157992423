// A schedule that is lent as words, written as its text.
#![tactic(auto)]

ghost use Rattle.std.specs.Prelude.{◌≡◌, ◌+◌, ◌≤◌, length};
ghost use Rattle.heads.specs.Put.{Put};
ghost use Rattle.text.specs.Reading.{line_answer};
ghost use Rattle.writing.specs.Writing.{event_in, opening_in, writing, written_answer};
ghost use Rattle.writing.specs.Parts.{lengths_in, lines_in, whole_text, measuring};
ghost use Rattle.writing.specs.declared.WriteError.TheVariants.{Line};

use text::{BadLine, Event, LONGEST, Opening};
use words::{Level, Node, Queue};

// Why no text was written.
#[derive(Clone, Copy, PartialEq, Eq, Debug)]
pub enum WriteError {
    // 13: the line that has no text, or 0 where the text is too long.
    Line(BadLine),
    // 12
    NoRoom,
}

impl From<BadLine> for WriteError {
    ghost from_gives = { λ bad e. e ≡ Line bad };

    fn from(bad: BadLine) -> WriteError {
        WriteError::Line(bad)
    }
}

// The event at a place: 1 level queue node, 2 level queue, or 3 count; with the place after its words.
// kept: an event's kind as a number among the lent words, whose meaning may not change (`event_words`).
#[tactic(auto, using(crate::specs::Laws::kinds), unfolding(crate::specs::Writing::event_in, crate::specs::Writing::is_kind))]
fn event_in(words: &[u16], at: usize) -> Option<(Event, usize)>
    requires { at ≤ length words.now }
    ensures { result ≡ event_in words.now at }
{
    match &words[at..] {
        [1, l, q, n, ..] => Some((Event::Enqueue(Level(*l), Queue(*q), Node(*n)), at + 4)),
        [2, l, q, ..] => Some((Event::Dequeue(Level(*l), Queue(*q)), at + 3)),
        [3, count, ..] if 1 <= *count => Some((Event::Steps(*count), at + 2)),
        _ => None,
    }
}

// kept: by place: a slice pattern would want an else that never runs, as the words are there.
fn opening_in(words: &[u16]) -> Opening
    requires { 4 ≤ length words.now }
    ensures { result ≡ opening_in words.now }
{
    Opening {
        levels: words[0],
        queues: words[1],
        nodes: words[2],
        events: words[3],
    }
}

// The length of a text that starts with so many bytes and has so many events after them.
// kept: measured and written in two walks: the first may meet a wrong line, the second meets none and has room (lengths_in, lines_in).
// kept: no Display, as in lines; and words with a place in them, from 4 on, as the definitions count (lengths_in, lines_in).
#[tactic(auto, using(crate::specs::Laws::lengths), unfolding(text::specs::Reading::line_answer))]
fn measure_events(words: &[u16], start: usize, count: u16) -> Result<usize, BadLine>
    requires { (4 ≤ length words.now) × (start ≤ 26) }
    ensures { line_answer result ≡ lengths_in start count 6 words.now 4 }
{
    let mut n = start;
    let mut at = 4;
    for line in 6..6 + usize::from(count) {
        let (e, next) = event_in(words, at).ok_or(BadLine(line))?;
        n += lines::event_length(e);
        at = next;
    }
    Ok(n)
}

#[tactic(auto, using(crate::specs::Laws::measures), unfolding(text::specs::Reading::line_answer, crate::specs::Writing::no_text))]
fn measure(words: &[u16]) -> Result<usize, BadLine>
    ensures { line_answer result ≡ measuring words.now }
{
    if words.len() < 4 {
        return Err(BadLine(words.len() + 2));
    }
    let o = opening_in(words);
    let n = measure_events(words, lines::opening_length(o), o.events)?;
    if LONGEST < n {
        return Err(BadLine(0));
    }
    Ok(n)
}

#[tactic(auto, using(crate::specs::Laws::puts))]
fn write_events(room: &mut [u8], place: usize, words: &[u16], count: u16) -> usize
    requires { (4 ≤ length words.now) × (place + length (lines_in count words.now 4) ≤ length room.old) }
    ensures { Put result room.new room.old place (lines_in count words.now 4) }
{
    let mut to = place;
    let mut at = 4;
    for _ in 0..count {
        let Some((e, next)) = event_in(words, at) else {
            return to;
        };
        to = lines::write_event(room, to, e);
        at = next;
    }
    to
}

#[tactic(auto, using(crate::specs::Laws::wholes))]
fn write_text(room: &mut [u8], words: &[u16]) -> usize
    requires { (4 ≤ length words.now) × (length (whole_text words.now) ≤ length room.old) }
    ensures { Put result room.new room.old 0 (whole_text words.now) }
{
    let o = opening_in(words);
    let at = lines::write_opening(room, 0, o);
    write_events(room, at, words, o.events)
}

// The words are L, Q, N, the count of events and then each event. The answer is the text's length.
#[tactic(auto, using(crate::specs::Laws::ends), unfolding(text::specs::Reading::line_answer, crate::specs::Writing::written_answer))]
pub fn write_schedule(words: &[u16], room: &mut [u8]) -> Result<usize, WriteError>
    ensures { writing words.now room.old ≡ (written_answer result, room.new) }
{
    let n = measure(words)?;
    if room.len() < n {
        return Err(WriteError::NoRoom);
    }
    Ok(write_text(room, words))
}
