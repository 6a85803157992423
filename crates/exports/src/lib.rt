// The calls for a caller in C.
#![tactic(auto)]

ghost use Rattle.std.specs.Prelude.{◌≡◌};
ghost use Rattle.words.specs.Layout.{level, queue, node};
ghost use Rattle.answers.specs.Said.{number, answer_says, step_says, why_says, run_says};
ghost use Rattle.fresh.specs.Fresh.{fresh_of};
ghost use Rattle.begins.specs.Begin.{enqueue_of, dequeue_of};
ghost use Rattle.steps.specs.Step.{step_of};
ghost use Rattle.steps.specs.Run.{run_of};
ghost use Rattle.asks.specs.Quiet.{quiet_of};
ghost use Rattle.asks.specs.Listing.{listing_of};
ghost use Rattle.waiting.specs.Waiting.{waiting_of};
ghost use Rattle.exports.specs.Reply.{
  packed,
  why_code,
  done_reply,
  step_reply,
  run_reply,
  quiet_reply,
  count_reply,
  waiting_reply,
  end_words,
  step_end,
  run_end,
  count_words,
  done_out,
  step_out,
  run_out,
  count_out,
  waiting_out,
};

use answers::{End, Ran, Refusal, Why};
use words::{Level, Node, Queue};

// A value and a code as one number.
fn pack(value: u16, code: u16) -> u32
    ensures { result ≡ packed value code }
{
    u32::from(value) + 65536 * u32::from(code)
}

// A refusal's number is its code, and its value is 0.
fn refused(r: Refusal) -> u32
    ensures { result ≡ packed 0 (number r) }
{
    pack(0, u16::from(r))
}

fn pack_done(a: Result<(), Refusal>) -> u32
    ensures { result ≡ done_reply (answer_says a) }
{
    a.map_or_else(refused, |()| pack(0, 0))
}

// kept: the codes that C reads (docs/CALLS.md; specs: step_reply, why_code).
fn pack_step(a: Result<Option<End>, Refusal>) -> u32
    ensures { result ≡ step_reply (step_says a) }
{
    match a {
        Ok(None) => pack(0, 0),
        Ok(Some(_)) => pack(0, 20),
        Err(r) => refused(r),
    }
}

// kept: the codes that C reads (docs/CALLS.md; specs: why_code).
fn code_of(why: Why) -> u16
    ensures { result ≡ why_code (why_says why) }
{
    match why {
        Why::Ended(_) => 20,
        Why::Spent => 0,
        Why::Idle => 9,
        Why::Damaged => 10,
    }
}

fn pack_run(a: Result<Ran, Refusal>) -> u32
    ensures { result ≡ run_reply (run_says a) }
{
    a.map_or_else(refused, |ran| pack(ran.steps, code_of(ran.why)))
}

// kept: the C interface: the five words of an end, in their order.
fn put_end(end: &mut [u16; 5], e: End)
    ensures { end.new ≡ end_words e }
{
    *end = [e.op, e.level.0, e.queue.0, e.node.0, e.steps];
}

// kept: one of a step and one of a run, which have their end in different places; one over both would first make an Option of each.
fn put_step_end(end: &mut [u16; 5], a: Result<Option<End>, Refusal>)
    ensures { end.new ≡ step_end (step_says a) end.old }
{
    if let Ok(Some(e)) = a {
        put_end(end, e);
    }
}

fn put_run_end(end: &mut [u16; 5], a: Result<Ran, Refusal>)
    ensures { end.new ≡ run_end (run_says a) end.old }
{
    if let Ok(ran) = a {
        if let Why::Ended(e) = ran.why {
            put_end(end, e);
        }
    }
}

// The two words of a count, low first.
fn put_count(count: &mut [u16; 2], a: Result<u32, Refusal>)
    ensures { count.new ≡ count_words (answer_says a) count.old }
{
    if let Ok(n) = a {
        *count = [(n % 65536) as u16, (n / 65536) as u16];
    }
}

#[unsafe(no_mangle)]
pub extern "C" fn exports_fresh(t: &mut [u16], levels: u16, queues: u16, nodes: u16) -> u32
    ensures { done_out (fresh_of (record { levels = levels; queues = queues; nodes = nodes }) t.old) ≡ (result, t.new) }
{
    pack_done(fresh::fresh_table(t, levels, queues, nodes))
}

#[unsafe(no_mangle)]
pub extern "C" fn exports_begin_enqueue(t: &mut [u16], l: u16, q: u16, n: u16) -> u32
    ensures { done_out (enqueue_of t.old (level l) (queue q) (node n)) ≡ (result, t.new) }
{
    pack_done(begins::begin_enqueue(t, Level(l), Queue(q), Node(n)))
}

#[unsafe(no_mangle)]
pub extern "C" fn exports_begin_dequeue(t: &mut [u16], l: u16, q: u16) -> u32
    ensures { done_out (dequeue_of t.old (level l) (queue q)) ≡ (result, t.new) }
{
    pack_done(begins::begin_dequeue(t, Level(l), Queue(q)))
}

// kept: each call has a name of its own, as C knows it.
#[unsafe(no_mangle)]
pub extern "C" fn exports_step(t: &mut [u16], end: &mut [u16; 5]) -> u32
    ensures { step_out (step_of t.old) end.old ≡ (result, (t.new, end.new)) }
{
    let a = steps::step(t);
    put_step_end(end, a);
    pack_step(a)
}

#[unsafe(no_mangle)]
pub extern "C" fn exports_run(t: &mut [u16], budget: u16, end: &mut [u16; 5]) -> u32
    ensures { run_out (run_of budget t.old) end.old ≡ (result, (t.new, end.new)) }
{
    let a = steps::run(t, budget);
    put_run_end(end, a);
    pack_run(a)
}

#[unsafe(no_mangle)]
pub extern "C" fn exports_quiet(t: &[u16], q: u16) -> u32
    ensures { quiet_reply (quiet_of t.now (queue q)) ≡ result }
{
    asks::quiet(t, Queue(q)).map_or_else(refused, |yes| pack(u16::from(yes), 0))
}

#[unsafe(no_mangle)]
pub extern "C" fn exports_waiting(t: &[u16], q: u16, count: &mut [u16; 2]) -> u32
    ensures { waiting_out (waiting_of t.now (queue q)) count.old ≡ (result, count.new) }
{
    let a = waiting::waiting(t, Queue(q));
    put_count(count, a);
    a.map_or_else(refused, |_| pack(0, 0))
}

#[unsafe(no_mangle)]
pub extern "C" fn exports_listing(t: &[u16], q: u16, room: &mut [u16]) -> u32
    ensures { count_out (listing_of t.now (queue q) room.old) ≡ (result, room.new) }
{
    asks::listing(t, Queue(q), room).map_or_else(refused, |n| pack(n, 0))
}
