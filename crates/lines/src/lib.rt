// The lines of a schedule's text, measured and written.
#![tactic(auto)]

ghost use Rattle.std.specs.Prelude.{◌≡◌, ◌+◌, ◌≤◌, length};
ghost use Rattle.heads.specs.Put.{Put};
ghost use Rattle.text.specs.Text.{event_text, opening_text};
ghost use Rattle.decimals.specs.Decimals.{width_of};

use text::{Event, LF, Opening, SPACE};
use words::{Level, Node, Queue};

// How many bytes a number and the byte after it take.
// kept: no Display of an event or an opening: what is promised here is a line's length before it is written, and where the next begins
// (Put), and Display tells neither.
#[tactic(auto, using(crate::specs::Laws::lengths))]
fn field_length(n: u16) -> usize
    ensures { (result ≡ width_of n + 1) × (result ≤ 6) }
{
    decimals::width(usize::from(n)) + 1
}

#[tactic(auto, using(crate::specs::Laws::lengths))]
pub fn event_length(e: Event) -> usize
    ensures { (result ≡ length (event_text e)) × (result ≤ 20) }
{
    match e {
        Event::Enqueue(l, q, n) => 2 + field_length(l.0) + field_length(q.0) + field_length(n.0),
        Event::Dequeue(l, q) => 2 + field_length(l.0) + field_length(q.0),
        Event::Steps(count) => 2 + field_length(count),
    }
}

// kept: three numbers, as an Event has them.
#[tactic(auto, using(crate::specs::Laws::lengths), unfolding(text::specs::Text::event_text))]
fn write_enqueue(room: &mut [u8], place: usize, l: Level, q: Queue, n: Node) -> usize
    requires { place + length (event_text (Event.Enqueue l q n)) ≤ length room.old }
    ensures { Put result room.new room.old place (event_text (Event.Enqueue l q n)) }
{
    let level = heads::write_head(room, place, b"E ");
    let queue = decimals::write_field(room, level, l.0, SPACE);
    let node = decimals::write_field(room, queue, q.0, SPACE);
    decimals::write_field(room, node, n.0, LF)
}

#[tactic(auto, using(crate::specs::Laws::lengths), unfolding(text::specs::Text::event_text))]
fn write_dequeue(room: &mut [u8], place: usize, l: Level, q: Queue) -> usize
    requires { place + length (event_text (Event.Dequeue l q)) ≤ length room.old }
    ensures { Put result room.new room.old place (event_text (Event.Dequeue l q)) }
{
    let level = heads::write_head(room, place, b"D ");
    let queue = decimals::write_field(room, level, l.0, SPACE);
    decimals::write_field(room, queue, q.0, LF)
}

#[tactic(auto, using(crate::specs::Laws::lengths), unfolding(text::specs::Text::event_text))]
fn write_steps(room: &mut [u8], place: usize, count: u16) -> usize
    requires { place + length (event_text (Event.Steps count)) ≤ length room.old }
    ensures { Put result room.new room.old place (event_text (Event.Steps count)) }
{
    let at = heads::write_head(room, place, b"S ");
    decimals::write_field(room, at, count, LF)
}

// Writes an event's line at place, and answers the place after it.
pub fn write_event(room: &mut [u8], place: usize, e: Event) -> usize
    requires { place + length (event_text e) ≤ length room.old }
    ensures { Put result room.new room.old place (event_text e) }
{
    match e {
        Event::Enqueue(l, q, n) => write_enqueue(room, place, l, q, n),
        Event::Dequeue(l, q) => write_dequeue(room, place, l, q),
        Event::Steps(count) => write_steps(room, place, count),
    }
}

#[tactic(auto, using(crate::specs::Laws::lengths))]
pub fn opening_length(o: Opening) -> usize
    ensures { (result ≡ length (opening_text o)) × (result ≤ 26) }
{
    2 + field_length(o.levels)
        + field_length(o.queues)
        + field_length(o.nodes)
        + field_length(o.events)
}

// Writes the first five lines at place, and answers the place after them.
#[tactic(auto, using(crate::specs::Laws::lengths), unfolding(text::specs::Text::opening_text))]
pub fn write_opening(room: &mut [u8], place: usize, o: Opening) -> usize
    requires { place + length (opening_text o) ≤ length room.old }
    ensures { Put result room.new room.old place (opening_text o) }
{
    let levels = heads::write_head(room, place, b"3\n");
    let queues = decimals::write_field(room, levels, o.levels, LF);
    let nodes = decimals::write_field(room, queues, o.queues, LF);
    let events = decimals::write_field(room, nodes, o.nodes, LF);
    decimals::write_field(room, events, o.events, LF)
}
