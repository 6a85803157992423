// Beginning an enqueue or a dequeue.
#![tactic(auto)]

ghost use Rattle.std.specs.Prelude.{◌≡◌};
ghost use Rattle.words.specs.Inner.{Fits};
ghost use Rattle.answers.specs.Said.{says, answer_says, refusal_number};
ghost use Rattle.begins.specs.Begin.{begun_at, enqueue_why, enqueue_sized, enqueue_of, dequeue_why, dequeue_sized, dequeue_of};

use answers::Refusal;
use table::Point;
use words::{Frame, Level, Node, Queue, Sizes, Word};

// kept: an enqueue and a dequeue have three functions each, since they share three tests and the order of the calls alone, and one function
// that takes the others as closures would be longer than the two. Level, queue and node are three parameters, as document 01's calls have
// them.

// The frame of an operation that begins.
// kept: op and point are numbers, as in words::Frame.
fn begin_frame(op: u16, point: u16, q: Queue, n: Node) -> Frame
    ensures { result ≡ begun_at op point q n }
{
    Frame {
        op,
        point,
        queue: q,
        node: n,
        ..words::no_frame()
    }
}

// The first refusal of an enqueue, if there is one.
// kept: t and s beside each other, as in words.
#[tactic(auto, using(conditions::specs::Laws::has_node), unfolding(crate::specs::Begin::enqueue_why))]
pub fn enqueue_why(t: &[u16], s: Sizes, l: Level, q: Queue, n: Node) -> Result<(), Refusal>
    requires { Fits s t.now }
    ensures { refusal_number result ≡ enqueue_why s t.now l q n }
{
    if conditions::no_level(s, l) {
        return Err(Refusal::Level);
    }
    if conditions::no_queue(s, q) {
        return Err(Refusal::Queue);
    }
    if conditions::no_node(s, n) {
        return Err(Refusal::Node);
    }
    if conditions::is_busy(t, s, l) {
        return Err(Refusal::Busy);
    }
    if conditions::in_use(t, s, n) {
        return Err(Refusal::InUse);
    }
    Ok(())
}

// Begins an enqueue that is not refused, on a table that was measured.
// kept: op and point are numbers, as in words::Frame.
#[tactic(auto, using(crate::specs::Laws::enqueues), unfolding(crate::specs::Begin::unless, crate::specs::Begin::enqueue_sized))]
pub fn put_enqueue(t: &mut [u16], s: Sizes, l: Level, q: Queue, n: Node)
    requires fits { Fits s t.old }
    requires n_value { enqueue_why s t.old l q n ≡ 0 }
    ensures { enqueue_sized s t.old l q n ≡ (says tt, t.new) }
{
    words::write_frame(t, s, l, begin_frame(1, Point::E1, q, n));
    words::store(t, s, Word::Use(n), q.0);
}

// Begins an enqueue on a table that was measured.
#[tactic(auto, unfolding(crate::specs::Begin::unless, crate::specs::Begin::enqueue_sized))]
fn enqueue_sized(t: &mut [u16], s: Sizes, l: Level, q: Queue, n: Node) -> Result<(), Refusal>
    requires { Fits s t.old }
    ensures { enqueue_sized s t.old l q n ≡ (answer_says result, t.new) }
{
    enqueue_why(t, s, l, q, n)?;
    put_enqueue(t, s, l, q, n);
    Ok(())
}

// Hands a user's node to a queue at a level.
#[tactic(auto, using(words::specs::Laws::measured_fits), unfolding(crate::specs::Begin::enqueue_of, crate::specs::Begin::enqueue_measured))]
pub fn begin_enqueue(t: &mut [u16], l: Level, q: Queue, n: Node) -> Result<(), Refusal>
    ensures { enqueue_of t.old l q n ≡ (answer_says result, t.new) }
{
    let s = words::measure(t).ok_or(Refusal::Table)?;
    enqueue_sized(t, s, l, q, n)
}

// The first refusal of a dequeue, if there is one.
#[tactic(auto, using(conditions::specs::Laws::has_level), unfolding(crate::specs::Begin::dequeue_why))]
pub fn dequeue_why(t: &[u16], s: Sizes, l: Level, q: Queue) -> Result<(), Refusal>
    requires { Fits s t.now }
    ensures { refusal_number result ≡ dequeue_why s t.now l q }
{
    if conditions::no_level(s, l) {
        return Err(Refusal::Level);
    }
    if conditions::no_queue(s, q) {
        return Err(Refusal::Queue);
    }
    if conditions::is_busy(t, s, l) {
        return Err(Refusal::Busy);
    }
    if conditions::is_dequeued(t, s, l, q) {
        return Err(Refusal::Dequeued);
    }
    Ok(())
}

// Begins a dequeue that is not refused, on a table that was measured.
// kept: op and point are numbers, as in words::Frame.
#[tactic(auto, using(crate::specs::Laws::dequeues), unfolding(crate::specs::Begin::unless, crate::specs::Begin::dequeue_sized))]
pub fn put_dequeue(t: &mut [u16], s: Sizes, l: Level, q: Queue)
    requires fits { Fits s t.old }
    requires q_value { dequeue_why s t.old l q ≡ 0 }
    ensures { dequeue_sized s t.old l q ≡ (says tt, t.new) }
{
    words::write_frame(t, s, l, begin_frame(2, Point::D1, q, Node(0)));
}

// Begins a dequeue on a table that was measured.
#[tactic(auto, unfolding(crate::specs::Begin::unless, crate::specs::Begin::dequeue_sized))]
fn dequeue_sized(t: &mut [u16], s: Sizes, l: Level, q: Queue) -> Result<(), Refusal>
    requires { Fits s t.old }
    ensures { dequeue_sized s t.old l q ≡ (answer_says result, t.new) }
{
    dequeue_why(t, s, l, q)?;
    put_dequeue(t, s, l, q);
    Ok(())
}

// Begins to take a node out of a queue at a level.
#[tactic(auto, using(words::specs::Laws::measured_fits), unfolding(crate::specs::Begin::dequeue_of, crate::specs::Begin::dequeue_measured))]
pub fn begin_dequeue(t: &mut [u16], l: Level, q: Queue) -> Result<(), Refusal>
    ensures { dequeue_of t.old l q ≡ (answer_says result, t.new) }
{
    let s = words::measure(t).ok_or(Refusal::Table)?;
    dequeue_sized(t, s, l, q)
}
