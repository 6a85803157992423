// The outcomes of schedules: what the dequeues returned and the nodes that each queue has at the end. They are counted over many schedules
// and written as lines.
#![tactic(auto)]

ghost use Rattle.std.specs.Prelude.{◌≡◌, true, ℕ, ◌+◌, ◌*◌, ◌%◌, ◌≤◌, ◌<◌, List, [], ◌∷◌, length, replicate, MatchOption, Some};
ghost use Rattle.words.specs.Layout.{limits, measured, words};
ghost use Rattle.fresh.specs.Fresh.{fresh_of};
ghost use Rattle.loglines.specs.Ink.{Writes};
ghost use Rattle.outcomes.specs.Notes.{note_one, note};
ghost use Rattle.outcomes.specs.Outcomes.{
  into,
  returned,
  replay_steps,
  replay_from,
  queue_nodes,
  queues_nodes,
  outcome_from,
  sizes,
};
ghost use Rattle.outcomes.specs.Tallies.{
  word_of,
  key_of,
  known_in,
  has_key,
  place_from,
  one_more,
  add_one,
  add_entry,
  counted,
  tallied,
  Fitting,
};
ghost use Rattle.outcomes.specs.Lines.{
  part_of,
  number_in,
  decimal_of,
  value_text,
  queue_head,
  numbers_text,
  outcome_line,
  outcome_lines,
  others_line,
  count_line,
  counted_text,
  put_lines,
};

use answers::{End, Refusal, Why};
use entries::Schedule;
use loglines::Sheet;
use std::marker::Model;
use words::{Queue, Sizes};

// Ends what the dequeues returned, and each queue's nodes; no node has this number.
// kept: the mark is one of the sixteen numbers of a key in the lent tallies (specs: mark, numbers_text); an Option has no room there.
const MARK: u16 = 65535;

// So many outcomes are kept; the schedules of all others are counted together.
const KEPT: usize = 1024;

// How many outcomes are kept and the schedules of the others; then for each one its schedules and the four words of its key.
// kept: words of a slice, which `tries::tally_schedules` is lent and `tallied` speaks of.
pub const TALLIES: usize = 5122;

// Room that is enough for the lines of any tallies.
pub const LINES: usize = 262144;

// An outcome's first sixteen numbers: those that were noted, and zeros behind them.
#[derive(Drop)]
struct Notes {
    n: usize,
    numbers: [u16; 16],
}

impl Model for Notes {
    ghost Value = { ℕ × List ℕ };

    ghost view = { λ s. (s.n, s.numbers) };

    ghost invariant = { λ s. length s.numbers ≡ 16 };
}

impl Notes {
    fn new() -> Self
        ensures { result ≡ (0, replicate 16 0) }
    {
        Notes {
            n: 0,
            numbers: [0; 16],
        }
    }

    // Notes a number, if there is room.
    #[tactic(auto, unfolding(crate::specs::Notes::note_one))]
    fn put(&mut self, x: u16)
        ensures { note_one self.old x ≡ self.new }
    {
        if self.n < self.numbers.len() {
            self.numbers[self.n] = x;
            self.n += 1;
        }
    }

    // Notes what an operation that ended returned: a dequeue's node, 0 for empty.
    // kept: op is a number, as in answers::End.
    #[tactic(auto, unfolding(crate::specs::Notes::note, crate::specs::Outcomes::returned))]
    fn put_end(&mut self, e: End)
        ensures { note self.old (returned e) ≡ self.new }
    {
        if e.op == 2 {
            self.put(e.node.0);
        }
    }

    // Takes so many steps of a table that was measured, and notes what was returned.
    fn replay_sized(&mut self, t: &mut [u16], s: Sizes, count: u16)
        requires { measured t.old ≡ Some s }
        ensures { into self.old (replay_steps count t.old) ≡ (self.new, t.new) }
    {
        let mut left = count;
        while 0 < left {
            let ran = steps::run_sized(t, s, left);
            let Why::Ended(e) = ran.why else {
                return;
            };
            self.put_end(e);
            left -= ran.steps;
        }
    }

    // Takes so many steps, and notes what was returned.
    fn replay_steps(&mut self, t: &mut [u16], count: u16)
        ensures { into self.old (replay_steps count t.old) ≡ (self.new, t.new) }
    {
        if let Some(s) = words::measure(t) {
            self.replay_sized(t, s, count);
        }
    }

    // Replays the operations, each after its steps, and the steps after the last; notes what was returned.
    fn replay(&mut self, t: &mut [u16], schedule: &Schedule)
        ensures { into self.old (replay_from schedule.now.k schedule.now.ops.now schedule.now.path 0 t.old) ≡ (self.new, t.new) }
    {
        for i in 0..schedule.k {
            self.replay_steps(t, schedule.path[i]);
            ways::take_begin(t, ways::op_in(schedule.ops, i));
        }
        self.replay_steps(t, schedule.path[schedule.k]);
    }

    // Notes the queue's nodes from first to last, none where it is not quiet, and the mark.
    #[tactic(auto, unfolding(crate::specs::Notes::note))]
    fn put_queue(&mut self, t: &[u16], q: Queue)
        ensures { note self.old (queue_nodes t.now q.0) ≡ self.new }
    {
        let mut nodes = [0u16; 6];
        if let Ok(m) = asks::listing(t, q, &mut nodes) {
            for x in nodes.iter().take(usize::from(m)) {
                self.put(*x);
            }
        }
        // kept: the mark is a number, as said at MARK.
        self.put(MARK);
    }

    fn put_queues(&mut self, t: &[u16], queues: u16)
        ensures { note self.old (queues_nodes t.now 1 queues) ≡ self.new }
    {
        for i in 0..queues {
            self.put_queue(t, Queue(i + 1));
        }
    }

    // The numbers, four to a word.
    #[tactic(auto, unfolding(crate::specs::Tallies::key_of))]
    fn key(&self) -> [u64; 4]
        ensures { result ≡ key_of self.now.1 }
    {
        [
            word_of(&self.numbers, 0),
            word_of(&self.numbers, 4),
            word_of(&self.numbers, 8),
            word_of(&self.numbers, 12),
        ]
    }
}

// Four numbers in one word.
#[tactic(auto, unfolding(crate::specs::Tallies::word_of))]
fn word_of(numbers: &[u16], i: usize) -> u64
    requires { i + 4 ≤ length numbers.now }
    ensures { result ≡ word_of numbers.now i }
{
    u64::from(numbers[i])
        + (u64::from(numbers[i + 1]) << 16)
        + (u64::from(numbers[i + 2]) << 32)
        + (u64::from(numbers[i + 3]) << 48)
}

// A schedule on a fresh table of these sizes: path[i] steps are taken before operation i of the k begins, and path[k] after the last.
// kept: the operations are not a Schedule, which says that they fit: tally takes those that do not fit too, and counts none of them.
#[derive(Clone, Copy)]
pub struct Trial<'a> {
    pub levels: u16,
    pub queues: u16,
    pub nodes: u16,
    pub ops: &'a [u16],
    pub k: usize,
    pub path: [u16; 7],
}

impl Trial<'_> {
    // How many of the lent words the table takes.
    fn table_words(&self, all: usize) -> usize
        ensures value { words (sizes self.now.levels self.now.queues self.now.nodes) ≤ all
            → result ≡ words (sizes self.now.levels self.now.queues self.now.nodes) }
        ensures upper_bound { result ≤ all }
    {
        let n = words::words_of(Sizes {
            levels: usize::from(self.levels),
            queues: usize::from(self.queues),
            nodes: usize::from(self.nodes),
        });
        n.min(all)
    }

    // Replays the schedule from a fresh table, and notes its outcome.
    fn outcome(&self, schedule: &Schedule, t: &mut [u16]) -> Notes
        ensures { (note (0, replicate 16 0) (outcome_from self.now.queues schedule.now.ops.now schedule.now.k schedule.now.path
            (fresh_of (sizes self.now.levels self.now.queues self.now.nodes) t.old).1)) ≡ result }
    {
        let mut notes = Notes::new();
        // of sizes that are refused the contract says nothing
        let _ = fresh::fresh_table(t, self.levels, self.queues, self.nodes);
        notes.replay(t, schedule);
        // kept: the mark is a number, as said at MARK.
        notes.put(MARK);
        notes.put_queues(t, self.queues);
        notes
    }

    // Counts the schedule. The words t are lent for the table. Tallies that are too short stay as they were. Of operations that do not
    // fit, of sizes that are refused and of too few words t the contract says nothing; no operations that do not fit are counted.
    pub fn tally(&self, t: &mut [u16], tallies: &mut [u64])
        ensures { Fitting (sizes self.now.levels self.now.queues self.now.nodes) t.old self.now.ops.now self.now.k
            → tallies.new
            ≡ tallied (sizes self.now.levels self.now.queues self.now.nodes) self.now.ops.now self.now.k self.now.path tallies.old }
    {
        if tallies.len() < TALLIES {
            return;
        }
        let Some(schedule) = Schedule::of(self.ops, self.path, self.k) else {
            return;
        };
        let n = self.table_words(t.len());
        let notes = self.outcome(&schedule, &mut t[..n]);
        count(tallies, &notes.key());
    }
}

// A count stays at the largest.
#[tactic(auto, unfolding(crate::specs::Tallies::one_more, crate::specs::Tallies::add_one))]
fn add_one(tallies: &mut [u64], i: usize)
    requires { i < length tallies.old }
    ensures { tallies.new ≡ add_one tallies.old i }
{
    tallies[i] = tallies[i].saturating_add(1);
}

// One schedule of a new outcome, behind n others.
fn add_entry(tallies: &mut [u64], n: usize, key: &[u64; 4])
    requires { (5122 ≤ length tallies.old) × (n < 1024) }
    ensures { tallies.new ≡ add_entry tallies.old n key.now }
{
    let at = 2 + 5 * n;
    // kept: as, since std has no From of a usize for u64.
    tallies[0] = (n + 1) as u64;
    tallies[at] = 1;
    tallies[at + 1..at + 5].copy_from_slice(key);
}

// Counts one schedule with the outcome of this key.
fn count(tallies: &mut [u64], key: &[u64; 4])
    requires { 5122 ≤ length tallies.old }
    ensures { tallies.new ≡ counted tallies.old key.now }
{
    let read = Tallies { words: tallies };
    let n = read.known();
    match read.find(n, key) {
        Some(i) => add_one(tallies, 2 + 5 * i),
        None if n < KEPT => add_entry(tallies, n, key),
        None => add_one(tallies, 1),
    }
}

// Number j of a word's four.
#[tactic(auto, using(crate::specs::LinesLaws::part_shifted))]
fn part_of(w: u64, j: usize) -> u16
    requires { j < 4 }
    ensures { result ≡ part_of w j }
{
    ((w >> (16 * j)) % 65536) as u16
}

// Number j of the outcome's key, which starts at this place.
// kept: four numbers to a word, as the definitions of the tallies have them (number_in, key_of).
#[tactic(auto, unfolding(crate::specs::Lines::number_in))]
fn number_in(tallies: &[u64], key: usize, j: usize) -> u16
    requires { (key + 4 ≤ length tallies.now) × (j < 16) }
    ensures { result ≡ number_in tallies.now key j }
{
    part_of(tallies[key + j / 4], j % 4)
}

fn put_decimal(sheet: &mut Sheet, n: u64)
    ensures { Writes sheet.old sheet.new (decimal_of n) }
{
    let mut digits = itoa::Buffer::new();
    sheet.put(digits.format(n).as_bytes());
}

// ` NODE` or ` empty`
// kept: 0 is empty, as in answers::End, and one of the numbers of a key (specs: value_text).
// kept: no Display of the lines, for the reason beside loglines::Sheet.
fn put_value(sheet: &mut Sheet, x: u16)
    ensures { Writes sheet.old sheet.new (value_text x) }
{
    if x == 0 {
        sheet.put(b" empty");
    } else {
        sheet.put(b" ");
        put_decimal(sheet, u64::from(x));
    }
}

// ` queue NUMBER`
fn put_queue(sheet: &mut Sheet, q: u16)
    ensures { Writes sheet.old sheet.new (queue_head q) }
{
    sheet.put(b" queue ");
    put_decimal(sheet, u64::from(q));
}

// What the dequeues returned, and then each queue with its nodes.
fn put_numbers(sheet: &mut Sheet, tallies: &[u64], key: usize, queues: u16)
    requires { key + 4 ≤ length tallies.now }
    ensures { Writes sheet.old sheet.new (numbers_text 16 tallies.now key 0 queues 0) }
{
    let mut q: u16 = 0;
    for j in 0..16 {
        let x = number_in(tallies, key, j);
        // kept: the mark is a number, as said at MARK.
        if x != MARK {
            put_value(sheet, x);
        } else if q < queues {
            q += 1;
            put_queue(sheet, q);
        } else {
            return;
        }
    }
}

// `COUNT other`, if there are any
fn put_others(sheet: &mut Sheet, n: u64)
    ensures { Writes sheet.old sheet.new (others_line n) }
{
    if n != 0 {
        put_decimal(sheet, n);
        sheet.put(b" other\n");
    }
}

// `schedules COUNT`
fn put_count(sheet: &mut Sheet, n: u64)
    ensures { Writes sheet.old sheet.new (count_line n) }
{
    sheet.put(b"schedules ");
    put_decimal(sheet, n);
    sheet.put(b"\n");
}

// Tallies that have all their words.
#[derive(Clone, Copy)]
struct Tallies<'a> {
    words: &'a [u64],
    ghost long: { 5122 ≤ length words.now },
}

impl Tallies<'_> {
    // How many outcomes are kept.
    #[tactic(auto, unfolding(crate::specs::Tallies::known_in))]
    fn known(&self) -> usize
        ensures { (result ≡ known_in self.now.words.now) × (result ≤ 1024) }
    {
        self.words[0].min(KEPT as u64) as usize
    }

    fn has_key(&self, i: usize, key: &[u64; 4]) -> bool
        requires { i < 1024 }
        ensures { result ≡ has_key self.now.words.now i key.now }
    {
        let at = 3 + 5 * i;
        self.words[at..at + 4] == key[..]
    }

    // Which of the first n outcomes has this key.
    fn find(&self, n: usize, key: &[u64; 4]) -> Option<usize>
        requires { n ≤ 1024 }
        ensures { MatchOption result (n ≤ place_from n self.now.words.now 0 key.now)
            (λ i. (i ≡ place_from n self.now.words.now 0 key.now) × (i < n)) }
    {
        (0..n).position(|i| self.has_key(i, key))
    }

    // `COUNT returned A B .. queue 1 X Y .. queue 2 Z ..`
    fn put_outcome(&self, sheet: &mut Sheet, i: usize, queues: u16)
        requires { i < 1024 }
        ensures { Writes sheet.old sheet.new (outcome_line self.now.words.now i queues) }
    {
        let at = 2 + 5 * i;
        put_decimal(sheet, self.words[at]);
        sheet.put(b" returned");
        put_numbers(sheet, self.words, at + 1, queues);
        sheet.put(b"\n");
    }

    fn put_outcomes(&self, sheet: &mut Sheet, queues: u16)
        ensures { Writes sheet.old sheet.new (outcome_lines (known_in self.now.words.now) self.now.words.now 0 queues) }
    {
        let n = self.known();
        for i in 0..n {
            self.put_outcome(sheet, i, queues);
        }
    }

    fn put_lines(&self, sheet: &mut Sheet, count: u64, queues: u16)
        ensures { Writes sheet.old sheet.new (counted_text count self.now.words.now queues) }
    {
        put_count(sheet, count);
        self.put_outcomes(sheet, queues);
        put_others(sheet, self.words[1]);
    }
}

// How many schedules there are, then a line for each outcome in the order of their first schedules, and one for the others: how many bytes
// they have, or that the room is too small.
#[tactic(auto, unfolding(crate::specs::Lines::put_lines))]
pub fn write_outcomes(
    count: u64,
    tallies: &[u64],
    queues: u16,
    room: &mut [u8],
) -> Result<usize, Refusal>
    requires { 5122 ≤ length tallies.now }
    ensures { put_lines room.old (counted_text count tallies.now queues) ≡ (result, room.new) }
{
    let mut sheet = Sheet { room, at: Some(0) };
    Tallies { words: tallies }.put_lines(&mut sheet, count, queues);
    sheet.at.ok_or(Refusal::Room)
}
