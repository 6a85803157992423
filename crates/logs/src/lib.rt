// The whole log of a schedule's text, plain or with the bounds.
#![tactic(auto)]

ghost use Rattle.std.specs.Prelude.{◌≡◌};
ghost use Rattle.answers.specs.Said.{answer_says};
ghost use Rattle.loglines.specs.Ink.{Writes};
ghost use Rattle.fresh.specs.Fresh.{fresh_of};
ghost use Rattle.play.specs.Parts.{into, Plays};
ghost use Rattle.logs.specs.Log.{
  queue_of,
  queues_of,
  opening_sizes,
  beside_of,
  log_text,
  room_of,
  log_of,
};
ghost use Rattle.logs.specs.Parts.{placed_log};

use answers::Refusal;
use loglines::{Pen, Sheet};
use text::{BadLine, Opening};
use words::Queue;

// The log as it is, or the bounds log: the bound on its steps stands last in each E line.
#[derive(Clone, Copy, PartialEq, Eq, Debug)]
pub enum Kind {
    Plain,
    Bounds,
}

// The words of the largest table, and the bytes that every log of its kind fits.
pub const TABLE: usize = 2276;

pub const ROOM: usize = 393216;

pub const BOUNDS_ROOM: usize = 458752;

impl Kind {
    fn room(self) -> usize
        ensures { result ≡ room_of self }
    {
        match self {
            Kind::Plain => ROOM,
            Kind::Bounds => BOUNDS_ROOM,
        }
    }

    // The nodes of the table whose bound stands beside an enqueue's steps, if one does.
    fn bound_nodes(self, nodes: u16) -> Option<u16>
        ensures { result ≡ beside_of self nodes }
    {
        match self {
            Kind::Plain => None,
            Kind::Bounds => Some(nodes),
        }
    }
}

// The queue's last line.
fn write_queue(table: &[u16], sheet: &mut Sheet, q: Queue)
    ensures { Writes sheet.old sheet.new (queue_of table.now q.0) }
{
    let mut nodes = [0u16; 1024];
    match asks::listing(table, q, &mut nodes) {
        Ok(n) => sheet.put_queue(q, &nodes[..usize::from(n)]),
        Err(_) => sheet.put_unquiet(q),
    }
}

fn write_queues(table: &[u16], sheet: &mut Sheet, queues: u16)
    ensures { Writes sheet.old sheet.new (queues_of table.now 1 queues) }
{
    for i in 0..queues {
        write_queue(table, sheet, Queue(i + 1));
    }
}

// The log of a text that is right, whose events start at place.
fn write_played(
    kind: Kind,
    text: &[u8],
    place: usize,
    o: Opening,
    table: &mut [u16],
    sheet: &mut Sheet,
)
    ensures { Plays sheet.old sheet.new (placed_log kind o text.now place (fresh_of (opening_sizes o) table.old)) table.new }
{
    match fresh::fresh_table(table, o.levels, o.queues, o.nodes) {
        Ok(()) => {
            play::play_events(
                text,
                place,
                o.events,
                table,
                sheet,
                kind.bound_nodes(o.nodes),
            );
            write_queues(table, sheet, o.queues);
        }
        // kept: document 01 wants the bytes of R 0 2 written as a fixed byte string.
        Err(_) => sheet.put(b"R 0 2\n"),
    }
}

// The log of any text, as far as the room reaches.
fn write_whole(kind: Kind, text: &[u8], table: &mut [u16], sheet: &mut Sheet)
    ensures { Plays sheet.old sheet.new (log_text kind text.now table.old) table.new }
{
    match schedule::check_text(text) {
        Ok((o, place)) => write_played(kind, text, place, o, table, sheet),
        Err(BadLine(line)) => sheet.put_text_refusal(line),
    }
}

// The log of any text at the room's start, as far as the room reaches: how many bytes it has, if it fits.
fn write_from_start(kind: Kind, text: &[u8], table: &mut [u16], room: &mut [u8]) -> Pen
    ensures { into (Some 0, room.old) (log_text kind text.now table.old) ≡ ((result, room.new), table.new) }
{
    let mut sheet = Sheet { room, at: Some(0) };
    write_whole(kind, text, table, &mut sheet);
    sheet.at
}

// Writes the log of a schedule's text into the room, and answers its length; a table or a room that is too small is refused. The table is
// for its work.
pub fn write_log(
    kind: Kind,
    text: &[u8],
    table: &mut [u16],
    room: &mut [u8],
) -> Result<usize, Refusal>
    ensures { log_of kind text.now table.old room.old ≡ ((answer_says result, room.new), table.new) }
{
    if table.len() < TABLE {
        return Err(Refusal::Table);
    }
    if room.len() < kind.room() {
        return Err(Refusal::Room);
    }
    // an Ok: every log fits its room
    write_from_start(kind, text, table, room).ok_or(Refusal::Room)
}
