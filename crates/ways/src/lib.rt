// Operations, moves and what a schedule is: taking a step or the next begin, and the ways on which nothing is to be chosen.
#![tactic(auto)]

ghost use Rattle.std.specs.Prelude.{◌≡◌, true, ◌+◌, ◌-◌, ◌*◌, ◌≤◌, ◌<◌, length};
ghost use Rattle.ways.specs.Schedules.{op_in, begun};
ghost use Rattle.ways.specs.Forced.{stretched, gone_on, end_in, last_in, TableOf, Open};

use answers::Why;
use words::{Level, Node, Queue, Sizes};

// An operation: op 1 is an enqueue, op 2 with node 0 a dequeue; any other is never accepted.
// kept: op is a number, as in the words that C lends. One that is none has a level, a queue and a node too, of which `op_event` speaks,
// and with it what entries promises of any words: an enum would need a third variant with all four.
#[derive(Clone, Copy)]
pub struct Op {
    pub op: u16,
    pub level: Level,
    pub queue: Queue,
    pub node: Node,
}

// Operation i of the words.
// kept: by place: a slice pattern would want an else that never runs, as the words are there.
#[tactic(auto, unfolding(crate::specs::Schedules::op_in))]
pub fn op_in(ops: &[u16], i: usize) -> Op
    requires { (i < 6) × (4 * i + 4 ≤ length ops.now) }
    ensures { result ≡ op_in ops.now i }
{
    Op {
        op: ops[4 * i],
        level: Level(ops[4 * i + 1]),
        queue: Queue(ops[4 * i + 2]),
        node: Node(ops[4 * i + 3]),
    }
}

// kept: a table and its sizes are two parameters, as in words. In a struct of both, each contract of the search would have to say
// that the sizes are those that are asked, of which it now makes them.

// Whether the operation would be accepted.
// kept: op is a number, as said at Op.
#[tactic(auto, using(crate::specs::Calls::may))]
fn may_begin(t: &[u16], s: Sizes, o: Op) -> bool
    requires { TableOf s t.now }
    ensures { result ≡ (begun o t.now).0 }
{
    match o.op {
        1 => begins::enqueue_why(t, s, o.level, o.queue, o.node).is_ok(),
        2 if o.node.0 == 0 => begins::dequeue_why(t, s, o.level, o.queue).is_ok(),
        _ => false,
    }
}

// Begins the operation, which is accepted, on a table that was measured.
// kept: op is a number, as said at Op.
// kept: that the operation is accepted is a clause: it is of the table as it is now, which the next step changes.
#[tactic(auto, using(crate::specs::Calls::accepted))]
fn put_begin(t: &mut [u16], s: Sizes, o: Op)
    requires { TableOf s t.old × ((begun o t.old).0 ≡ true) }
    ensures { (begun o t.old ≡ (true, t.new)) × TableOf s t.new }
{
    if o.op == 1 {
        begins::put_enqueue(t, s, o.level, o.queue, o.node);
    } else {
        begins::put_dequeue(t, s, o.level, o.queue);
    }
}

// Begins the operation on a table that was measured, if it would be accepted.
#[tactic(auto, using(crate::specs::Calls::refused_stays))]
pub fn begin_sized(t: &mut [u16], s: Sizes, o: Op) -> bool
    requires { TableOf s t.old }
    ensures { (begun o t.old ≡ (result, t.new)) × TableOf s t.new }
{
    if may_begin(t, s, o) {
        put_begin(t, s, o);
        true
    } else {
        false
    }
}

// Begins the operation, if it would be accepted.
#[tactic(auto, using(crate::specs::Calls::begun_unfit))]
pub fn take_begin(t: &mut [u16], o: Op) -> bool
    ensures { begun o t.old ≡ (result, t.new) }
{
    let Some(s) = words::measure(t) else {
        return false;
    };
    begin_sized(t, s, o)
}

// Takes steps while the operation is refused, so that nothing is to be chosen: it stays refused until an operation ends. Answers what is
// left of the moves, 0 where nothing runs before it is accepted.
// kept: 0 for none, as stretched and gone_on say: no moves left and no way on end the search alike.
#[tactic(auto, using(crate::specs::Stretches::starts))]
pub fn stretch(t: &mut [u16], s: Sizes, o: Op, left: u16) -> u16
    requires { TableOf s t.old }
    ensures t_value { stretched o left t.old ≡ (result, t.new) }
    ensures fact { Open o s left result t.new }
{
    let mut rest = left;
    while 0 < rest {
        if may_begin(t, s, o) {
            return rest;
        }
        let ran = steps::run_sized(t, s, rest);
        match ran.why {
            Why::Ended(_) => rest -= ran.steps,
            _ => return 0,
        }
    }
    0
}

// Takes a step, where the operation is accepted before it, and then steps while it is refused. Answers what is left of the moves, 0 where
// no step can be taken or nothing runs before it is accepted again.
// kept: 0 for none, as in stretch.
#[tactic(auto, using(crate::specs::Stretches::gone_none, crate::specs::Stretches::shut))]
pub fn go_on(t: &mut [u16], s: Sizes, o: Op, left: u16) -> u16
    requires { TableOf s t.old × ((begun o t.old).0 ≡ true) }
    ensures t_value { gone_on o left t.old ≡ (result, t.new) }
    ensures fact { Open o s (left - 1) result t.new }
{
    if left == 0 {
        return 0;
    }
    match steps::step_sized(t, s) {
        Ok(None) => left - 1,
        Ok(Some(_)) => stretch(t, s, o, left - 1),
        Err(_) => 0,
    }
}

// No operation remains: the steps until nothing runs, or None where that does not come.
pub fn steps_left(t: &mut [u16], s: Sizes, left: u16) -> Option<u16>
    requires { TableOf s t.old }
    ensures { end_in left 0 t.old ≡ result }
{
    let ran = steps::run_out(t, s, left);
    match ran.why {
        Why::Idle => Some(ran.steps),
        _ => None,
    }
}

// The words of one table to another of the same length.
// kept: word by word, as words::copy_part.
pub fn copy_words(from: &[u16], to: &mut [u16])
    requires { length to.old ≡ length from.now }
    ensures { to.new ≡ from.now }
{
    for i in 0..from.len() {
        to[i] = from[i];
    }
}

// The last operation, which is accepted, begins on a copy of the table: the steps that follow it, or None where they do not end.
#[tactic(auto, using(crate::specs::Stretches::last_none, crate::specs::Stretches::last_begun))]
pub fn try_last(t: &[u16], s: Sizes, copy: &mut [u16], o: Op, left: u16) -> Option<u16>
    requires { (length copy.old ≡ length t.now) × TableOf s t.now × ((begun o t.now).0 ≡ true) }
    ensures { last_in o left t.now ≡ result }
{
    if left == 0 {
        return None;
    }
    copy_words(t, copy);
    put_begin(copy, s, o);
    steps_left(copy, s, left - 1)
}
