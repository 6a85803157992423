// The search for every schedule of a few operations: what follows a step and what follows a begin, each explored in terms of the other,
// with the moves that remain falling. Where there is a choice the table is saved by value.
#![tactic(auto)]

ghost use Rattle.std.specs.Prelude.{◌≡◌, true, ◌+◌, ◌≤◌, ◌<◌, length, take, leb, cond};
ghost use Rattle.words.specs.Layout.{words};
ghost use Rattle.ways.specs.Schedules.{op_in, begun, by_step, by_begin};
ghost use Rattle.ways.specs.Forced.{TableOf};
ghost use Rattle.search.specs.declared.What.TheVariants.{Measure, Write};
ghost use Rattle.search.specs.Walk.{
  sizes_of,
  is_going,
  more,
  shut,
  entered,
  emitted,
  tailed,
  ops_at,
  listing_at,
  state_of,
  Kept,
  Given,
  Exploring,
};

use entries::Schedule;
use outcomes::Trial;
use text::Opening;
use words::Sizes;

// What is done with each schedule: it is counted, its outcome is counted too, or its text is measured, or written.
// kept: an enum and no closure: what is listed is defined by it (emitted, entered), and so what tries promises of each call.
#[derive(Clone, Copy, PartialEq, Eq, Debug)]
pub enum What {
    Count,
    Tally,
    Measure,
    Write,
}

// The sizes, how many operations there are, how many schedules are wanted, and what is done with each.
#[derive(Clone, Copy)]
pub struct Asked {
    pub levels: u16,
    pub queues: u16,
    pub nodes: u16,
    pub operations: usize,
    pub bound: u64,
    pub what: What,
}

// How a listing stops: not yet; as many are listed as are wanted and one more exists; the next has no room; for a reason of the caller's
// own, by its number, which stays as it is and lists nothing.
#[derive(Clone, Copy, PartialEq, Eq, Debug)]
pub enum Stop {
    Going,
    Cut,
    Full,
    Other(u64),
}

// The schedules listed, their bytes, and how the listing stops.
#[derive(Clone, Copy)]
pub struct Listed {
    pub count: u64,
    pub at: usize,
    pub stop: Stop,
}

// What is listed so far, and what is lent to the search: a table to try the last operation on, the room for the texts, and the tallies.
#[derive(Drop)]
pub struct Listing<'a> {
    pub listed: Listed,
    pub copy: &'a mut [u16],
    pub room: &'a mut [u8],
    pub tallies: &'a mut [u64],
}

// What is asked of which operations, four words each: at most six, on a table of sizes within the limits.
#[derive(Clone, Copy)]
pub struct Search<'a> {
    pub asked: Asked,
    pub ops: &'a [u16],
    ghost fits: { Given (length ops.now) asked },
}

// Where a search stands: operation i is the next, so many moves are left, n steps were taken since the last begin, and the path has the
// counts of steps before those that have begun.
#[derive(Clone, Copy)]
pub struct Spot {
    pub i: usize,
    pub left: u16,
    pub n: u16,
    pub path: [u16; 7],
}

// The most words that a table has, and those of a table of few nodes: an array is cleared before it is used, so a small one is quicker.
pub const WORDS: usize = 2276;

pub const SMALL: usize = 256;

impl Asked {
    // kept: three fields to three, as in fresh_table and outcomes::Trial; a function of three numbers would be called with the same
    // lines.
    pub fn sizes(&self) -> Sizes
        ensures { result ≡ sizes_of self.now }
    {
        Sizes {
            levels: usize::from(self.levels),
            queues: usize::from(self.queues),
            nodes: usize::from(self.nodes),
        }
    }

    // The opening of a text with so many events.
    fn opening(&self, events: u16) -> Opening
        ensures { result ≡ record { levels = self.now.levels; queues = self.now.queues; nodes = self.now.nodes; events = events } }
    {
        Opening {
            levels: self.levels,
            queues: self.queues,
            nodes: self.nodes,
            events,
        }
    }
}

// Whether n bytes fit from a place on.
// kept: checked_add with is_some_and says the same, with a closure more.
fn has_room(all: usize, at: usize, n: usize) -> bool
    ensures value { result ≡ leb (at + n) all }
    ensures n_bound { result ≡ true → at + n ≤ all }
{
    at <= all && n <= all - at
}

impl Listed {
    // Whether more may be listed.
    pub fn is_open(&self) -> bool
        ensures { result ≡ is_going self.now.stop }
    {
        self.stop == Stop::Going
    }

    // One schedule more, with so many bytes of text.
    fn add(&mut self, bytes: usize)
        requires { (self.old.count < 18446744073709551615) × (self.old.at + bytes < 18446744073709551616) }
        ensures { self.new ≡ more bytes self.old }
    {
        self.count += 1;
        self.at += bytes;
    }

    // Nothing more is listed: Cut, or Full.
    fn close(&mut self, stop: Stop)
        ensures { self.new ≡ shut stop self.old }
    {
        self.stop = stop;
    }
}

impl Search<'_> {
    // One schedule more, whose text is measured, and written where that is asked.
    fn list_text(&self, path: [u16; 7], writes: bool, out: &mut Listing<'_>)
        requires { out.old.listed.count < self.now.asked.bound }
        ensures value { state_of out.new
            ≡ entered self.now.asked self.now.ops.now path (cond writes Write Measure) (state_of out.old) }
        ensures kept { Kept out.old out.new }
    {
        let schedule = Schedule {
            ops: self.ops,
            path,
            k: self.asked.operations,
        };
        let s = schedule.events_size();
        let o = self.asked.opening(s.events);
        let n = lines::opening_length(o) + s.bytes;
        let at = out.listed.at;
        if !has_room(out.room.len(), at, n) {
            return out.listed.close(Stop::Full);
        }
        out.listed.add(n);
        if !writes {
            return;
        }
        schedule.write_text(out.room, at, o);
    }

    // One schedule more: its counts are the first of the path, one more than there are operations.
    fn emit(&self, path: [u16; 7], out: &mut Listing<'_>)
        requires { words (sizes_of self.now.asked) ≤ length out.old.copy.now }
        ensures value { emitted self.now.asked self.now.ops.now (take (self.now.asked.operations + 1) path) (state_of out.old)
            ≡ state_of out.new }
        ensures kept { Kept out.old out.new }
    {
        if !out.listed.is_open() {
            return;
        }
        if self.asked.bound <= out.listed.count {
            return out.listed.close(Stop::Cut);
        }
        match self.asked.what {
            What::Count => out.listed.add(0),
            What::Tally => {
                let trial = Trial {
                    levels: self.asked.levels,
                    queues: self.asked.queues,
                    nodes: self.asked.nodes,
                    ops: self.ops,
                    k: self.asked.operations,
                    path,
                };
                trial.tally(out.copy, out.tallies);
                out.listed.add(0);
            }
            What::Measure => self.list_text(path, false, out),
            What::Write => self.list_text(path, true, out),
        }
    }

    // All operations have begun, and so many steps follow: one schedule, or none where they do not end.
    pub fn emit_tail(&self, tail: Option<u16>, path: [u16; 7], out: &mut Listing<'_>)
        requires { words (sizes_of self.now.asked) ≤ length out.old.copy.now }
        ensures value { tailed self.now.asked self.now.ops.now (take self.now.asked.operations path) tail (state_of out.old)
            ≡ state_of out.new }
        ensures kept { Kept out.old out.new }
    {
        if let Some(m) = tail {
            let mut p = path;
            p[self.asked.operations] = m;
            self.emit(p, out);
        }
    }

    // All that goes on with a step: operation i is accepted now. The table is used up. Where one operation remains, what follows its begin
    // is tried on the copy before the step, so that nothing has to be saved.
    // kept: Exploring is a clause: it ties the table's and the copy's length, the request and the spot, which no one struct holds.
    #[cycle(explore)]
    pub fn explore_step<const N: usize>(&self, t: &mut [u16], at: Spot, out: &mut Listing<'_>)
        requires exploring { Exploring N (length t.old) (length out.old.copy.now) self.now.asked at }
        requires table_of { TableOf (sizes_of self.now.asked) t.old × ((begun (op_in self.now.ops.now at.i) t.old).0 ≡ true) }
        ensures value { listing_at self.now.asked self.now.ops.now at
            (by_step at.left t.old (ops_at self.now.asked self.now.ops.now at)) (state_of out.old) ≡ state_of out.new }
        ensures kept { Kept out.old out.new }
    {
        if !out.listed.is_open() {
            return;
        }
        let s = self.asked.sizes();
        let o = ways::op_in(self.ops, at.i);
        let k = ways::go_on(t, s, o, at.left);
        // kept: k is 0 where nothing goes on, as ways::go_on and ways::stretch answer.
        if k == 0 {
            return;
        }
        let next = Spot {
            left: k,
            n: at.n + (at.left - k),
            ..at
        };
        if at.i + 1 == self.asked.operations {
            let tail = ways::try_last(t, s, out.copy, o, k);
            self.explore_step::<N>(t, next, out);
            let mut path = at.path;
            path[at.i] = next.n;
            self.emit_tail(tail, path, out);
        } else {
            self.explore_saved::<N>(t, next, out);
            self.explore_begin::<N>(t, next, out);
        }
    }

    // All that goes on with a step, on a table saved by value in N words.
    #[cycle(explore)]
    fn explore_saved<const N: usize>(&self, t: &[u16], at: Spot, out: &mut Listing<'_>)
        requires exploring { Exploring N (length t.now) (length out.old.copy.now) self.now.asked at }
        requires table_of { TableOf (sizes_of self.now.asked) t.now × ((begun (op_in self.now.ops.now at.i) t.now).0 ≡ true) }
        ensures value { listing_at self.now.asked self.now.ops.now at
            (by_step at.left t.now (ops_at self.now.asked self.now.ops.now at)) (state_of out.old) ≡ state_of out.new }
        ensures kept { Kept out.old out.new }
    {
        let mut saved = [0u16; N];
        let here = t.len();
        let u = &mut saved[..here];
        ways::copy_words(t, u);
        self.explore_step::<N>(u, at, out);
    }

    // All that goes on with the begin of operation i. The table is used up.
    #[cycle(explore)]
    pub fn explore_begin<const N: usize>(&self, t: &mut [u16], at: Spot, out: &mut Listing<'_>)
        requires exploring { Exploring N (length t.old) (length out.old.copy.now) self.now.asked at }
        requires table_of { TableOf (sizes_of self.now.asked) t.old }
        ensures value { listing_at self.now.asked self.now.ops.now at
            (by_begin at.left t.old (ops_at self.now.asked self.now.ops.now at)) (state_of out.old) ≡ state_of out.new }
        ensures kept { Kept out.old out.new }
    {
        if at.left == 0 {
            return;
        }
        if !out.listed.is_open() {
            return;
        }
        let s = self.asked.sizes();
        let o = ways::op_in(self.ops, at.i);
        if !ways::begin_sized(t, s, o) {
            return;
        }
        let left = at.left - 1;
        let mut path = at.path;
        path[at.i] = at.n;
        if at.i + 1 == self.asked.operations {
            let tail = ways::steps_left(t, s, left);
            return self.emit_tail(tail, path, out);
        }
        let i = at.i + 1;
        let k = ways::stretch(t, s, ways::op_in(self.ops, i), left);
        // kept: k is 0 where nothing goes on, as ways::go_on and ways::stretch answer.
        if k == 0 {
            return;
        }
        let next = Spot {
            i,
            left: k,
            n: left - k,
            path,
        };
        self.explore_saved::<N>(t, next, out);
        self.explore_begin::<N>(t, next, out);
    }
}
