// The lines of the log, written one after another into lent room as far as it reaches.
#![tactic(auto)]

ghost use Rattle.std.specs.Prelude.{◌≡◌, ◌∷◌, []};
ghost use Rattle.answers.specs.Most.{enqueue_most};
ghost use Rattle.decimals.specs.Decimals.{digits_of, field_of};
ghost use Rattle.loglines.specs.Lines.{
  text_line,
  refusal_line,
  operation_text,
  line_of,
  nodes_text,
  queue_line,
  unquiet_line,
};

use answers::End;
use words::{Level, Queue};

// How many bytes are written; none, where the room was too small for the next one: then no more is written.
pub type Pen = Option<usize>;

// Lent room, and where the pen stands in it. The pen can be copied; the room, which is lent to one alone, cannot.
#[derive(Drop)]
pub struct Sheet<'a> {
    pub room: &'a mut [u8],
    pub at: Pen,
}

const SPACE: u8 = 32;

const LF: u8 = 10;

// The most steps that an enqueue takes at a level of a table of so many nodes.
fn enqueue_most(l: Level, nodes: u16) -> usize
    ensures { result ≡ enqueue_most l.0 nodes }
{
    (usize::from(l.0) + 2) * (usize::from(nodes) + 6)
}

// kept: no `Display` and `write!` for the lines. What these promise they promise of an `Ok` alone (`WritesOnOk`), and a sheet's bytes are
// said also where its room ends within a line; and their numbers have all their digits, where `digits_of` has five at most.
impl Sheet<'_> {
    ghost use Rattle.loglines.specs.Ink.{Writes};

    fn put_byte(&mut self, b: u8)
        ensures { Writes self.old self.new (b ∷ []) }
    {
        if let Some(at) = self.at {
            if at < self.room.len() {
                self.room[at] = b;
                self.at = Some(at + 1);
            } else {
                self.at = None;
            }
        }
    }

    pub fn put(&mut self, bytes: &[u8])
        ensures { Writes self.old self.new bytes.now }
    {
        for b in bytes {
            self.put_byte(*b);
        }
    }

    fn put_number(&mut self, n: usize)
        ensures { Writes self.old self.new (digits_of n) }
    {
        let mut digits = [0u8; 5];
        let w = decimals::write_digits(&mut digits, 0, n);
        self.put(&digits[..w]);
    }

    fn put_field(&mut self, n: usize, end: u8)
        ensures { Writes self.old self.new (field_of n end) }
    {
        self.put_number(n);
        self.put_byte(end);
    }

    // `T line`
    // kept: a letter and a number, as put_unquiet: two lines of their own each, and a function for both would be no shorter.
    pub fn put_text_refusal(&mut self, line: usize)
        ensures { Writes self.old self.new (text_line line) }
    {
        self.put(b"T ");
        self.put_field(line, LF);
    }

    // `R event number`
    // kept: number is any number: refusal_line is promised of each, and a Refusal would be a narrower type.
    pub fn put_refusal(&mut self, event: u16, number: u16)
        ensures { Writes self.old self.new (refusal_line event number) }
    {
        self.put(b"R ");
        self.put_field(usize::from(event), SPACE);
        self.put_field(usize::from(number), LF);
    }

    // `E level queue node ` or `D level queue node `
    // kept: op is a number, as in answers::End.
    fn put_operation(&mut self, e: End)
        ensures { Writes self.old self.new (operation_text e) }
    {
        self.put(if e.op == 1 { b"E " } else { b"D " });
        self.put_field(usize::from(e.level.0), SPACE);
        self.put_field(usize::from(e.queue.0), SPACE);
        self.put_field(usize::from(e.node.0), SPACE);
    }

    // `E level queue node steps` or `D level queue node steps`; beside an enqueue's steps, if a number of nodes is given, the bound on them
    // in a table of so many
    // kept: op is a number, as in answers::End.
    pub fn put_end(&mut self, e: End, bound_nodes: Option<u16>)
        ensures { Writes self.old self.new (line_of bound_nodes e) }
    {
        self.put_operation(e);
        match bound_nodes {
            Some(nodes) if e.op == 1 => {
                self.put_field(usize::from(e.steps), SPACE);
                self.put_field(enqueue_most(e.level, nodes), LF);
            }
            _ => self.put_field(usize::from(e.steps), LF),
        }
    }

    // The nodes, each after a space.
    fn put_nodes(&mut self, nodes: &[u16])
        ensures { Writes self.old self.new (nodes_text nodes.now) }
    {
        for n in nodes {
            self.put_byte(SPACE);
            self.put_number(usize::from(*n));
        }
    }

    // `Q queue` and its nodes
    pub fn put_queue(&mut self, q: Queue, nodes: &[u16])
        ensures { Writes self.old self.new (queue_line q.0 nodes.now) }
    {
        self.put(b"Q ");
        self.put_number(usize::from(q.0));
        self.put_nodes(nodes);
        self.put_byte(LF);
    }

    // `U queue`
    pub fn put_unquiet(&mut self, q: Queue)
        ensures { Writes self.old self.new (unquiet_line q.0) }
    {
        self.put(b"U ");
        self.put_field(usize::from(q.0), LF);
    }
}
