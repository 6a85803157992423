// The points and the step table.
#![tactic(auto)]

ghost use Rattle.std.specs.Prelude.{◌≡◌, map};
ghost use Rattle.table.specs.Points.{point_of, number_of, points};
ghost use Rattle.words.specs.Inner.{Fits};
ghost use Rattle.table.specs.Frames.{go_to, below_k_to, below_m_to};
ghost use Rattle.table.specs.Table.{row};
ghost use Rattle.table.specs.Turn.{loaded, stored, turned};

use words::{Frame, Level, Node, Sizes, Word};

// A point of the step table, by the number that a frame holds.
// kept: document 01 wants each point as an associated constant of the point type, and a frame's point may be a number of none of them.
#[derive(Clone, Copy)]
pub struct Point(pub u16);

impl Point {
    pub const E1: u16 = 1;

    pub const E2: u16 = 2;

    pub const E3: u16 = 3;

    pub const E4: u16 = 4;

    pub const E5: u16 = 5;

    pub const E6: u16 = 6;

    pub const E7: u16 = 7;

    pub const E8: u16 = 8;

    pub const E9: u16 = 9;

    pub const E10: u16 = 10;

    pub const E11: u16 = 11;

    pub const E12: u16 = 12;

    pub const E13: u16 = 13;

    pub const E14: u16 = 14;

    pub const E15: u16 = 15;

    pub const E16: u16 = 16;

    pub const E17: u16 = 17;

    pub const E18: u16 = 18;

    pub const E19: u16 = 19;

    pub const E20: u16 = 20;

    pub const E21: u16 = 21;

    pub const E22: u16 = 22;

    pub const E23: u16 = 23;

    pub const E24: u16 = 24;

    pub const E25: u16 = 25;

    pub const E26: u16 = 26;

    pub const E27: u16 = 27;

    pub const E28: u16 = 28;

    pub const E29: u16 = 29;

    pub const D1: u16 = 31;

    pub const D2: u16 = 32;

    pub const D3: u16 = 33;

    pub const D4: u16 = 34;

    pub const D5: u16 = 35;

    pub const D6: u16 = 36;

    pub const D7: u16 = 37;
}

// The points' numbers in their order: the names of the code are the names of the definitions.
// kept: this clause alone says that the constants have document 01's numbers, in its order.
pub fn numbers() -> [u16; 36]
    ensures { result ≡ map number_of points }
{
    [
        Point::E1,
        Point::E2,
        Point::E3,
        Point::E4,
        Point::E5,
        Point::E6,
        Point::E7,
        Point::E8,
        Point::E9,
        Point::E10,
        Point::E11,
        Point::E12,
        Point::E13,
        Point::E14,
        Point::E15,
        Point::E16,
        Point::E17,
        Point::E18,
        Point::E19,
        Point::E20,
        Point::E21,
        Point::E22,
        Point::E23,
        Point::E24,
        Point::E25,
        Point::E26,
        Point::E27,
        Point::E28,
        Point::E29,
        Point::D1,
        Point::D2,
        Point::D3,
        Point::D4,
        Point::D5,
        Point::D6,
        Point::D7,
    ]
}

// What follows an access: the frame as it goes on (it stays at its point, or goes to another), or the operation's end with its node, 0 for
// empty.
// kept: Done's node is a number, 0 for empty, as in answers::End and in the rows' ends (specs/Frames.antt, ends).
#[derive(Clone, Copy)]
pub enum After {
    Go(Frame),
    Done(Node),
}

// Go to the point x.
// kept: points are numbers, as said at Point; so in below_k and below_m.
fn go(f: Frame, x: u16) -> After
    ensures { result ≡ go_to x f }
{
    After::Go(Frame { point: x, ..f })
}

// Below k: if k is 0 go to x, else take 1 from k and go to y.
// kept: a twin of below_m, whose one difference is the field; one function for both would take the field's reading and writing as closures.
#[tactic(auto, unfolding(crate::specs::Frames::below_k_to, crate::specs::Frames::if_eq))]
fn below_k(f: Frame, x: u16, y: u16) -> After
    ensures { result ≡ below_k_to x y f }
{
    match f.k.0.checked_sub(1) {
        None => go(f, x),
        Some(k) => go(Frame { k: Level(k), ..f }, y),
    }
}

// Below m: if m is 0 go to x, else take 1 from m and go to y.
#[tactic(auto, unfolding(crate::specs::Frames::below_m_to, crate::specs::Frames::if_eq))]
fn below_m(f: Frame, x: u16, y: u16) -> After
    ensures { result ≡ below_m_to x y f }
{
    match f.m.0.checked_sub(1) {
        None => go(f, x),
        Some(m) => go(Frame { m: Level(m), ..f }, y),
    }
}

// What the word holds, where it is one of the table's.
// kept: t and s beside each other, as in words.
#[tactic(auto, unfolding(crate::specs::Turn::loaded))]
fn load(t: &[u16], s: Sizes, w: Word) -> Option<u16>
    requires { Fits s t.now }
    ensures { result ≡ loaded s t.now w }
{
    if words::has_word(s, w) {
        Some(words::load(t, s, w))
    } else {
        None
    }
}

// The word holds v from now on, where it is one of the table's.
#[tactic(auto, unfolding(crate::specs::Turn::stored))]
fn store(t: &mut [u16], s: Sizes, w: Word, v: u16) -> Option<()>
    requires { Fits s t.old }
    ensures { stored s t.old w v ≡ (result, t.new) }
{
    if !words::has_word(s, w) {
        return None;
    }
    words::store(t, s, w, v);
    Some(())
}

// The step table: a case for each point, in document 01's order, with its one access, its tests and its next points. The frame is held
// beside the table: q and n are its queue and node, k to m its words of these names. x is what was loaded. None: the access is to a word
// that is not one of the table's, or there is no such point.
// kept: one match on the point, since a frame holds its point as a number in words that a caller lends, which no closure can stand for. Op
// is a number as in words::Frame, and an end's node 0 for empty as in After; at D5 the sentinel is told from a node by number.
pub fn turn(t: &mut [u16], s: Sizes, l: Level, top: Level, mut f: Frame) -> Option<After>
    requires { Fits s t.old }
    ensures { turned s t.old (row (point_of f.point) f l top) ≡ (result, t.new) }
{
    let Frame {
        queue: q,
        node: n,
        k,
        p,
        c,
        a,
        r,
        m,
        ..
    } = f;
    match f.point {
        // V: show the node and the queue at this level; look at the levels below that are at work on the queue
        Point::E1 => {
            store(t, s, Word::LevelNode(l), n.0)?;
            Some(go(f, Point::E2))
        }
        Point::E2 => {
            store(t, s, Word::LevelQueue(l), q.0)?;
            f.k = l;
            Some(below_k(f, Point::E7, Point::E3))
        }
        Point::E3 => {
            let x = load(t, s, Word::LevelQueue(k))?;
            if x == q.0 {
                Some(go(f, Point::E4))
            } else {
                Some(below_k(f, Point::E7, Point::E3))
            }
        }
        Point::E4 => {
            let x = load(t, s, Word::LevelNode(k))?;
            f.p = Node(x);
            Some(go(f, Point::E5))
        }
        Point::E5 => {
            let x = load(t, s, Word::Tail(q))?;
            if x == p.0 {
                Some(go(f, Point::E6))
            } else {
                f.m = k;
                Some(below_m(f, Point::E15, Point::E13))
            }
        }
        Point::E6 => {
            store(t, s, Word::LevelQueue(k), 0)?;
            Some(below_k(f, Point::E7, Point::E3))
        }
        // none is left: follow the tail, link the node behind it, follow the node, move the tail
        Point::E7 => {
            let x = load(t, s, Word::Tail(q))?;
            f.c = Node(x);
            Some(go(f, Point::E8))
        }
        Point::E8 => {
            let x = load(t, s, Word::Next(c))?;
            if x != 0 {
                f.c = Node(x);
                Some(After::Go(f))
            } else {
                Some(go(f, Point::E9))
            }
        }
        Point::E9 => {
            store(t, s, Word::Next(c), n.0)?;
            f.c = n;
            Some(go(f, Point::E10))
        }
        Point::E10 => {
            let x = load(t, s, Word::Next(c))?;
            if x != 0 {
                f.c = Node(x);
                Some(After::Go(f))
            } else {
                Some(go(f, Point::E11))
            }
        }
        Point::E11 => {
            store(t, s, Word::LevelNode(l), c.0)?;
            Some(go(f, Point::E12))
        }
        Point::E12 => {
            store(t, s, Word::Tail(q), c.0)?;
            Some(go(f, Point::E28))
        }
        // find_anchor: the node before p, first along the chains of the levels below, then along the tail's
        Point::E13 => {
            let x = load(t, s, Word::LevelQueue(m))?;
            if x == q.0 {
                Some(go(f, Point::E14))
            } else {
                Some(below_m(f, Point::E15, Point::E13))
            }
        }
        Point::E14 => {
            let x = load(t, s, Word::LevelNode(m))?;
            f.c = Node(x);
            if x == 0 {
                Some(below_m(f, Point::E15, Point::E13))
            } else {
                Some(go(f, Point::E16))
            }
        }
        Point::E15 => {
            let x = load(t, s, Word::Tail(q))?;
            f.c = Node(x);
            f.m = top;
            Some(go(f, Point::E16))
        }
        Point::E16 => {
            let x = load(t, s, Word::Next(c))?;
            if x == p.0 {
                f.a = c;
                Some(go(f, Point::E21))
            } else if x != 0 {
                f.c = Node(x);
                Some(After::Go(f))
            } else if m == top {
                Some(go(f, Point::E17))
            } else {
                Some(below_m(f, Point::E15, Point::E13))
            }
        }
        // no anchor, stalled: the node goes behind p, and what was there behind the node's chain
        Point::E17 => {
            let x = load(t, s, Word::Next(p))?;
            f.r = Node(x);
            Some(go(f, Point::E18))
        }
        Point::E18 => {
            store(t, s, Word::Next(p), n.0)?;
            f.c = n;
            Some(go(f, Point::E19))
        }
        Point::E19 => {
            let x = load(t, s, Word::Next(c))?;
            if x != 0 {
                f.c = Node(x);
                Some(After::Go(f))
            } else {
                Some(go(f, Point::E20))
            }
        }
        Point::E20 => {
            store(t, s, Word::Next(c), r.0)?;
            Some(go(f, Point::E28))
        }
        // an anchor: the node goes behind it, and what was there behind the node's chain; the tail moves if it was the anchor
        Point::E21 => {
            let x = load(t, s, Word::Next(a))?;
            f.r = Node(x);
            Some(go(f, Point::E22))
        }
        Point::E22 => {
            store(t, s, Word::Next(a), n.0)?;
            f.c = n;
            Some(go(f, Point::E23))
        }
        Point::E23 => {
            let x = load(t, s, Word::Next(c))?;
            if x != 0 {
                f.c = Node(x);
                Some(After::Go(f))
            } else {
                Some(go(f, Point::E24))
            }
        }
        Point::E24 => {
            store(t, s, Word::Next(c), r.0)?;
            Some(go(f, Point::E25))
        }
        Point::E25 => {
            let x = load(t, s, Word::Tail(q))?;
            if x == a.0 {
                Some(go(f, Point::E26))
            } else {
                Some(go(f, Point::E28))
            }
        }
        Point::E26 => {
            store(t, s, Word::LevelNode(l), c.0)?;
            Some(go(f, Point::E27))
        }
        Point::E27 => {
            store(t, s, Word::Tail(q), c.0)?;
            Some(go(f, Point::E28))
        }
        // the level is done
        Point::E28 => {
            store(t, s, Word::LevelQueue(l), 0)?;
            Some(go(f, Point::E29))
        }
        Point::E29 => {
            store(t, s, Word::LevelNode(l), 0)?;
            if f.op == 1 {
                Some(After::Done(n))
            } else {
                Some(go(f, Point::D1))
            }
        }
        // P: take the head out of the queue; the sentinel is handed in again, from E1 on
        Point::D1 => {
            let x = load(t, s, Word::Head(q))?;
            f.c = Node(x);
            Some(go(f, Point::D2))
        }
        Point::D2 => {
            let x = load(t, s, Word::Tail(q))?;
            if x == c.0 {
                Some(After::Done(Node(0)))
            } else {
                Some(go(f, Point::D3))
            }
        }
        Point::D3 => {
            let x = load(t, s, Word::Next(c))?;
            if x == 0 {
                Some(After::Done(Node(0)))
            } else {
                Some(go(f, Point::D4))
            }
        }
        Point::D4 => {
            let x = load(t, s, Word::Next(c))?;
            f.r = Node(x);
            Some(go(f, Point::D5))
        }
        Point::D5 => {
            store(t, s, Word::Head(q), r.0)?;
            if c.0 == q.0 {
                Some(go(f, Point::D6))
            } else {
                Some(go(f, Point::D7))
            }
        }
        Point::D6 => {
            store(t, s, Word::Next(c), 0)?;
            f.node = Node(q.0);
            Some(go(f, Point::E1))
        }
        Point::D7 => {
            store(t, s, Word::Next(c), 0)?;
            // the bench's own word, which rides on this step
            store(t, s, Word::Use(c), 0)?;
            Some(After::Done(c))
        }
        _ => None,
    }
}
