// The text of a schedule, measured and written from its operations and the steps between their begins.
#![tactic(auto)]

ghost use Rattle.std.specs.Prelude.{◌≡◌, MatchOption, ◌+◌, ◌*◌, ◌≤◌, length};
ghost use Rattle.heads.specs.Put.{Put};
ghost use Rattle.text.specs.Text.{events_text, text_of};
ghost use Rattle.ways.specs.Schedules.{ops_in};
ghost use Rattle.entries.specs.Texts.{op_event, step_events, events_of};

use text::{Event, Opening};
use ways::Op;

// How many events, and how many bytes their lines take.
#[derive(Clone, Copy, Debug, PartialEq, Eq)]
pub struct Size {
    pub events: u16,
    pub bytes: usize,
}

// The first k operations, four words each: path[j] steps are taken before operation j begins, and path[k] after the last.
#[derive(Clone, Copy)]
pub struct Schedule<'a> {
    pub ops: &'a [u16],
    pub path: [u16; 7],
    pub k: usize,
    ghost fits: { (k ≤ 6) × (4 * k ≤ length ops.now) },
}

// The event that begins the operation.
// kept: op is a number, as in ways::Op.
#[tactic(auto, unfolding(crate::specs::Texts::op_event))]
fn op_event(o: Op) -> Event
    ensures { result ≡ op_event o }
{
    if o.op == 1 {
        Event::Enqueue(o.level, o.queue, o.node)
    } else {
        Event::Dequeue(o.level, o.queue)
    }
}

// What the S line of so many steps takes; none where there are no steps.
// kept: no Display, as in lines.
#[tactic(auto, using(crate::proofs::Entries::no_steps, crate::proofs::Entries::no_steps_text))]
fn steps_size(c: u16) -> Size
    ensures { (result.events ≡ length (step_events c)) × (result.bytes ≡ length (events_text (step_events c)))
        × (result.events ≤ 1) × (result.bytes ≤ 8) }
{
    if c == 0 {
        Size {
            events: 0,
            bytes: 0,
        }
    } else {
        Size {
            events: 1,
            bytes: lines::event_length(Event::Steps(c)),
        }
    }
}

#[tactic(auto, using(crate::proofs::Entries::no_steps_text, crate::proofs::Entries::steps_text))]
fn write_steps(room: &mut [u8], place: usize, c: u16) -> usize
    requires { place + length (events_text (step_events c)) ≤ length room.old }
    ensures { Put result room.new room.old place (events_text (step_events c)) }
{
    if c == 0 {
        place
    } else {
        lines::write_event(room, place, Event::Steps(c))
    }
}

impl<'a> Schedule<'a> {
    // The schedule of these operations, where there are so many, and at most six.
    pub fn of(ops: &'a [u16], path: [u16; 7], k: usize) -> Option<Self>
        ensures { MatchOption result ((k ≤ 6) × (4 * k ≤ length ops.now) → ⊥)
            (λ s. (s.ops.now ≡ ops.now) × (s.path ≡ path) × (s.k ≡ k)) }
    {
        if k <= 6 && 4 * k <= ops.len() {
            Some(Schedule { ops, path, k })
        } else {
            None
        }
    }

    // The schedule's events, and the bytes of their lines.
    pub fn events_size(&self) -> Size
        ensures { (result.events ≡ length (events_of self.now.path (ops_in self.now.k self.now.ops.now 0)))
            × (result.bytes ≡ length (events_text (events_of self.now.path (ops_in self.now.k self.now.ops.now 0))))
            × (result.bytes ≤ 176) }
    {
        let mut events: u16 = 0;
        let mut bytes = 0;
        for j in 0..self.k {
            let s = steps_size(self.path[j]);
            events += s.events + 1;
            bytes += s.bytes + lines::event_length(op_event(ways::op_in(self.ops, j)));
        }
        let s = steps_size(self.path[self.k]);
        Size {
            events: events + s.events,
            bytes: bytes + s.bytes,
        }
    }

    // kept: measured and written in two loops of three lines: one sums two numbers, the other has room for what they say.
    fn write_events(&self, room: &mut [u8], place: usize) -> usize
        requires { place + length (events_text (events_of self.now.path (ops_in self.now.k self.now.ops.now 0))) ≤ length room.old }
        ensures { Put result room.new room.old place (events_text (events_of self.now.path (ops_in self.now.k self.now.ops.now 0))) }
    {
        let mut to = place;
        for j in 0..self.k {
            to = write_steps(room, to, self.path[j]);
            to = lines::write_event(room, to, op_event(ways::op_in(self.ops, j)));
        }
        write_steps(room, to, self.path[self.k])
    }

    // Writes the text of the schedule at place, and answers the place after it.
    pub fn write_text(&self, room: &mut [u8], place: usize, o: Opening) -> usize
        requires { place + length (text_of o (events_of self.now.path (ops_in self.now.k self.now.ops.now 0))) ≤ length room.old }
        ensures { Put result room.new room.old place (text_of o (events_of self.now.path (ops_in self.now.k self.now.ops.now 0))) }
    {
        let at = lines::write_opening(room, place, o);
        self.write_events(room, at)
    }
}
