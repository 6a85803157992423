// The lent table: its sizes, its words by name, and its frames. No other crate knows where a word stands.
#![tactic(auto)]

ghost use Rattle.std.specs.Prelude.{◌≡◌, true, ◌+◌, ◌-◌, ◌≤◌, ◌<◌, length, get_or, drop, Some};
ghost use Rattle.std.proofs.Math.Seq.{paste};
ghost use Rattle.words.specs.Layout.{
  within,
  limits,
  sizes_of,
  agrees,
  measured,
  put_counts,
  words,
  has,
  addr,
  rd,
  wr,
  frame_at,
  frame_of,
  put_frame,
  no_frame,
};
ghost use Rattle.words.specs.Copy.{taller, raised};
ghost use Rattle.words.specs.Inner.{Small, Fits, Placed};

// A level, a queue and a node: three kinds of number.
// kept: each is a struct of its own and becomes an index in one place of its own, as document 01 asks.
#[derive(Clone, Copy, Default, PartialEq, Eq)]
pub struct Level(pub u16);

#[derive(Clone, Copy, Default, PartialEq, Eq)]
pub struct Queue(pub u16);

#[derive(Clone, Copy, Default, PartialEq, Eq)]
pub struct Node(pub u16);

// kept: usize, as indices and sums are made of them; text::Opening and search::Asked hold any 16 bits, as told or asked.
#[derive(Clone, Copy)]
pub struct Sizes {
    pub levels: usize,
    pub queues: usize,
    pub nodes: usize,
}

// A word of the table that is no count and no frame's.
#[derive(Clone, Copy)]
pub enum Word {
    LevelNode(Level),
    LevelQueue(Level),
    Head(Queue),
    Tail(Queue),
    Next(Node),
    Use(Node),
}

// A level's frame, as its words stand in the table.
// kept: op and point are numbers, since a damaged table's frame holds any number there, a step answers refusal 10 to it, and what is written
// back has to be what was read (`frame_of`, `put_frame`).
#[derive(Clone, Copy, Default)]
pub struct Frame {
    pub op: u16,
    pub point: u16,
    pub queue: Queue,
    pub node: Node,
    pub k: Level,
    pub p: Node,
    pub c: Node,
    pub a: Node,
    pub r: Node,
    pub m: Level,
    pub steps: u16,
}

// kept: `as` with its bound said once; u16::try_from would bring an error that no caller has.
pub fn narrow(x: usize) -> u16
    requires { x < 65536 }
    ensures { result ≡ x }
{
    x as u16
}

impl Level {
    pub fn index(self) -> usize
        ensures { result ≡ self.0 }
    {
        usize::from(self.0)
    }
}

impl Queue {
    pub fn index(self) -> usize
        requires { 1 ≤ self.0 }
        ensures { result ≡ self.0 - 1 }
    {
        usize::from(self.0) - 1
    }
}

impl Node {
    pub fn index(self) -> usize
        requires { 1 ≤ self.0 }
        ensures { result ≡ self.0 - 1 }
    {
        usize::from(self.0) - 1
    }
}

// Whether x is from..to.
// kept: contains of a range says no more, and its contract is in words that no other crate can open.
#[tactic(auto, unfolding(crate::specs::Layout::within))]
pub fn between(from: usize, to: usize, x: usize) -> bool
    ensures { result ≡ within from to x }
{
    from <= x && x <= to
}

#[tactic(auto, unfolding(crate::specs::Layout::limits))]
pub fn in_limits(s: Sizes) -> bool
    ensures { result ≡ limits s }
{
    between(1, 16, s.levels) && between(1, 8, s.queues) && between(s.queues, 1024, s.nodes)
}

// How many words a table of these sizes has.
// kept: Small is a clause and no invariant of Sizes: add_level answers one level more, which may not be small, and in_limits is asked of
// any sizes.
pub fn words_of(s: Sizes) -> usize
    requires { Small s }
    ensures { result ≡ words s }
{
    4 + 13 * s.levels + 2 * s.queues + 2 * s.nodes
}

// The word at i, and 0 past the end.
fn peek(t: &[u16], i: usize) -> usize
    ensures value { result ≡ get_or t.now i 0 }
    ensures upper_bound { result < 65536 }
{
    t.get(i).map_or(0, |w| usize::from(*w))
}

// The sizes that the table's counts say.
// kept: word by word, since where a count stands follows from the one before it, which no slice pattern says.
fn counts(t: &[u16]) -> Sizes
    ensures value { result ≡ sizes_of t.now }
    ensures small { Small result }
{
    let l = peek(t, 0);
    let q = peek(t, 1 + 2 * l);
    let n = peek(t, 2 + 2 * l + 2 * q);
    Sizes {
        levels: l,
        queues: q,
        nodes: n,
    }
}

#[tactic(auto, unfolding(crate::specs::Layout::agrees))]
fn agreeing(s: Sizes, t: &[u16]) -> bool
    requires { Small s }
    ensures { result ≡ agrees s t.now }
{
    in_limits(s)
        && words_of(s) <= t.len()
        && peek(t, 3 + 2 * s.levels + 2 * s.queues + 2 * s.nodes) == s.levels
}

// The table's sizes, if its counts are right and it is long enough.
#[tactic(auto, unfolding(crate::specs::Layout::measured))]
pub fn measure(t: &[u16]) -> Option<Sizes>
    ensures { result ≡ measured t.now }
{
    let s = counts(t);
    if agreeing(s, t) { Some(s) } else { None }
}

// Writes the counts.
#[tactic(auto, unfolding(crate::specs::Layout::put_counts))]
pub fn put_counts(t: &mut [u16], s: Sizes)
    requires { Fits s t.old }
    ensures { t.new ≡ put_counts s t.old }
{
    t[0] = narrow(s.levels);
    t[1 + 2 * s.levels] = narrow(s.queues);
    t[2 + 2 * s.levels + 2 * s.queues] = narrow(s.nodes);
    t[3 + 2 * s.levels + 2 * s.queues + 2 * s.nodes] = narrow(s.levels);
}

#[tactic(auto, unfolding(crate::specs::Layout::has))]
pub fn has_word(s: Sizes, w: Word) -> bool
    ensures { result ≡ has s w }
{
    match w {
        Word::LevelNode(l) => l.index() < s.levels,
        Word::LevelQueue(l) => l.index() < s.levels,
        Word::Head(q) => between(1, s.queues, usize::from(q.0)),
        Word::Tail(q) => between(1, s.queues, usize::from(q.0)),
        Word::Next(n) => between(1, s.nodes, usize::from(n.0)),
        Word::Use(n) => between(1, s.nodes, usize::from(n.0)),
    }
}

// Where a word stands.
// kept: that the word, or the level, is one of the table's is a clause: table::load and table::store answer an Option where that is not
// known.
fn place(s: Sizes, w: Word) -> usize
    requires small { Small s }
    requires w_value { has s w ≡ true }
    ensures { Placed result (addr s w) 1 (words s) }
{
    match w {
        Word::LevelNode(l) => 1 + 2 * l.index(),
        Word::LevelQueue(l) => 2 + 2 * l.index(),
        Word::Head(q) => 2 + 2 * s.levels + 2 * q.index(),
        Word::Tail(q) => 3 + 2 * s.levels + 2 * q.index(),
        Word::Next(n) => 3 + 2 * s.levels + 2 * s.queues + 2 * n.index(),
        Word::Use(n) => 4 + 2 * s.levels + 2 * s.queues + 2 * n.index(),
    }
}

// kept: a table and its sizes are two parameters, here and in the crates above, with a clause of both (Fits, measured). A struct of both,
// with Fits as its ghost field, proves for load and store; but half of the functions are lent the table by & and half by &mut, so that it
// would be two structs with the same methods.
#[tactic(auto, unfolding(crate::specs::Layout::rd))]
pub fn load(t: &[u16], s: Sizes, w: Word) -> u16
    requires fits { Fits s t.now }
    requires w_value { has s w ≡ true }
    ensures { result ≡ rd s t.now w }
{
    let at = place(s, w);
    t[at]
}

#[tactic(auto, unfolding(crate::specs::Layout::wr))]
pub fn store(t: &mut [u16], s: Sizes, w: Word, v: u16)
    requires fits { Fits s t.old }
    requires w_value { has s w ≡ true }
    ensures { t.new ≡ wr s t.old w v }
{
    let at = place(s, w);
    t[at] = v;
}

// Where a level's frame starts.
// kept: a level of the table is a clause of four functions; a type for it would hold the sizes too.
#[tactic(auto, unfolding(crate::specs::Layout::frame_at))]
fn frame_place(s: Sizes, l: Level) -> usize
    requires small { Small s }
    requires l_lt_levels { l.0 < s.levels }
    ensures { Placed result (frame_at s l) 11 (words s) }
{
    4 + 2 * s.levels + 2 * s.queues + 2 * s.nodes + 11 * l.index()
}

// kept: beside load, since no frame's word has a name (Word, and has, addr, rd over it); a number, as Frame's op.
#[tactic(auto, unfolding(crate::specs::Layout::frame_of))]
pub fn op_of(t: &[u16], s: Sizes, l: Level) -> u16
    requires fits { Fits s t.now }
    requires l_lt_levels { l.0 < s.levels }
    ensures { result ≡ (frame_of s t.now l).op }
{
    let b = frame_place(s, l);
    t[b]
}

// kept: by place, as frame_of says them: a slice pattern of eleven names would want an else that never runs.
#[tactic(auto, unfolding(crate::specs::Layout::frame_of))]
pub fn read_frame(t: &[u16], s: Sizes, l: Level) -> Frame
    requires fits { Fits s t.now }
    requires l_lt_levels { l.0 < s.levels }
    ensures { result ≡ frame_of s t.now l }
{
    let b = frame_place(s, l);
    Frame {
        op: t[b],
        point: t[b + 1],
        queue: Queue(t[b + 2]),
        node: Node(t[b + 3]),
        k: Level(t[b + 4]),
        p: Node(t[b + 5]),
        c: Node(t[b + 6]),
        a: Node(t[b + 7]),
        r: Node(t[b + 8]),
        m: Level(t[b + 9]),
        steps: t[b + 10],
    }
}

// kept: word by word, since copy_from_slice puts the words on the stack first and waits for them there: 26.4 for 22.3 ns a step.
pub fn write_frame(t: &mut [u16], s: Sizes, l: Level, f: Frame)
    requires fits { Fits s t.old }
    requires l_lt_levels { l.0 < s.levels }
    ensures { t.new ≡ put_frame s t.old l f }
{
    let b = frame_place(s, l);
    t[b] = f.op;
    t[b + 1] = f.point;
    t[b + 2] = f.queue.0;
    t[b + 3] = f.node.0;
    t[b + 4] = f.k.0;
    t[b + 5] = f.p.0;
    t[b + 6] = f.c.0;
    t[b + 7] = f.a.0;
    t[b + 8] = f.r.0;
    t[b + 9] = f.m.0;
    t[b + 10] = f.steps;
}

// The frame of a level that runs nothing.
pub fn no_frame() -> Frame
    ensures { result ≡ no_frame }
{
    Frame::default()
}

// The sizes with one more level.
pub fn add_level(s: Sizes) -> Sizes
    requires { Small s }
    ensures { result ≡ taller s }
{
    Sizes {
        levels: s.levels + 1,
        ..s
    }
}

// Copies n words, those from place at on, to the given place of other words.
// kept: word by word, since copy_from_slice is a memmove, which no archive for C had asked for from outside.
fn copy_part(from: &[u16], at: usize, n: usize, to: &mut [u16], place: usize)
    requires { (at + n ≤ length from.now) × (place + n ≤ length to.old) }
    ensures { to.new ≡ paste to.old place (drop at from.now) n }
{
    for i in 0..n {
        to[place + i] = from[at + i];
    }
}

// Copies a table with one more idle level on top.
pub fn raise(t: &[u16], s: Sizes, copy: &mut [u16])
    requires t_value { measured t.now ≡ Some s }
    requires copy_len { length copy.old ≡ words (taller s) }
    ensures { copy.new ≡ raised s t.now }
{
    let cut = 1 + 2 * s.levels;
    copy_part(t, 0, cut, copy, 0);
    copy[cut] = 0;
    copy[cut + 1] = 0;
    copy_part(t, cut, words_of(s) - cut, copy, cut + 2);
    let tall = add_level(s);
    write_frame(copy, tall, Level(narrow(s.levels)), no_frame());
    put_counts(copy, tall);
}
