// The reader: it holds the lent text and a place in it.
#![tactic(auto)]

ghost use Rattle.std.specs.Prelude.{◌≡◌};
ghost use Rattle.text.specs.Reading.{event_reading, line_answer};

use text::{BadLine, Event};

#[derive(Clone, Copy)]
pub struct Reader<'a> {
    pub text: &'a [u8],
    pub place: usize,
}

impl<'a> Reader<'a> {
    pub fn open(text: &'a [u8], place: usize) -> Reader<'a>
        ensures { (result.text ≡ text.entry) × (result.place ≡ place) }
    {
        Reader { text, place }
    }

    // The event at the reader's place, with the next place.
    pub fn next_event(self) -> Result<(Event, usize), BadLine>
        ensures { line_answer result ≡ event_reading self.entry.text.now self.entry.place }
    {
        text::read_event(self.text, self.place)
    }
}

// The same of a text and a place: whoever calls this needs no reader.
// kept: a public function that docs/PROVED.md names; its promise is that of next_event (one_next).
pub fn event_at(text: &[u8], place: usize) -> Result<(Event, usize), BadLine>
    ensures { line_answer result ≡ event_reading text.now place }
{
    Reader::open(text, place).next_event()
}
