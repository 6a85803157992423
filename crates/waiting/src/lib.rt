// How many nodes of a queue a reader would get now: dequeues are tried on a copy of the table.
#![tactic(auto)]

ghost use Rattle.std.specs.Prelude.{◌≡◌, ◌≤◌, ◌<◌, length, Some};
ghost use Rattle.words.specs.Layout.{words, measured, frame_of};
ghost use Rattle.words.specs.Copy.{taller};
ghost use Rattle.answers.specs.Said.{answer_says};
ghost use Rattle.waiting.specs.Waiting.{drained_at, drain_steps, waiting_in, waiting_sized, waiting_of};
ghost use Rattle.waiting.specs.Inner.{Ready, Alone, piece};

use answers::{Refusal, Why};
use words::{Level, Queue, Sizes};

// The words of the largest copy, of 17 levels, 8 queues and 1,024 nodes; and so many as most have, since an array is cleared before it
// is used.
const COPY: usize = 2289;

const SMALL: usize = 256;

// As many of the steps left as one run can be given.
#[tactic(auto, using(std::proofs::lemmas::Bool::Decides::nat_tests), unfolding(crate::specs::Inner::piece))]
fn run_budget(left: usize) -> u16
    ensures { result ≡ piece left }
{
    words::narrow(left.min(65535))
}

// Dequeues at the highest level, one after another, until one says empty: the nodes that they return. The level is idle.
// kept: an end's node is 0 for empty, as in answers::End.
// kept: t and s beside each other, as in words; and Ready is a clause of three private functions, each the other's only caller.
fn drain(t: &mut [u16], s: Sizes, l: Level, q: Queue, steps: usize) -> Result<u32, Refusal>
    requires alone { Alone s t.old l q }
    requires l_value { ((frame_of s t.old l).op ≡ 0) × (steps < 4294967296) }
    ensures { drained_at s q l steps t.old ≡ answer_says result }
{
    begins::put_dequeue(t, s, l, q);
    let mut left = steps;
    let mut n: u32 = 0;
    while 0 < left {
        let ran = steps::run_level(t, s, l, run_budget(left));
        left -= usize::from(ran.steps);
        match ran.why {
            Why::Ended(e) => {
                if e.node.0 == 0 {
                    return Ok(n);
                }
                begins::put_dequeue(t, s, l, q);
                n += 1;
            }
            Why::Spent => {}
            Why::Idle | Why::Damaged => return Err(Refusal::Damaged),
        }
    }
    Err(Refusal::Damaged)
}

// (L + 3) × (N + 7) × (N + 1)
#[tactic(auto, using(crate::specs::Laws::each_few, crate::specs::Laws::all_few))]
fn drain_steps(s: Sizes) -> usize
    requires { (s.levels ≤ 16) × (s.nodes ≤ 1024) }
    ensures { result ≡ drain_steps s }
{
    (s.levels + 3) * (s.nodes + 7) * (s.nodes + 1)
}

// On a copy that is lent.
#[tactic(auto, using(crate::specs::Laws::ready_small, crate::specs::Laws::raised_alone, crate::specs::Laws::raised_rests, crate::specs::Laws::all_few, words::specs::Laws::measured_limits))]
fn count_on(t: &[u16], s: Sizes, q: Queue, copy: &mut [u16]) -> Result<u32, Refusal>
    requires ready { Ready s t.now q }
    requires copy_len { length copy.old ≡ words (taller s) }
    ensures { waiting_in s t.now q ≡ answer_says result }
{
    words::raise(t, s, copy);
    drain(
        copy,
        words::add_level(s),
        Level(words::narrow(s.levels)),
        q,
        drain_steps(s),
    )
}

// On a copy of n words, in an array of W.
fn count_in<const W: usize>(t: &[u16], s: Sizes, q: Queue, n: usize) -> Result<u32, Refusal>
    requires ready { Ready s t.now q }
    requires n_value { n ≡ words (taller s) }
    requires room { (n ≤ W) × (W < 65536) }
    ensures { waiting_in s t.now q ≡ answer_says result }
{
    let mut room = [0u16; W];
    count_on(t, s, q, &mut room[..n])
}

#[tactic(auto, using(crate::specs::Laws::ready_small, crate::specs::Laws::taller_small, crate::specs::Laws::taller_words))]
fn count_waiting(t: &[u16], s: Sizes, q: Queue) -> Result<u32, Refusal>
    requires { Ready s t.now q }
    ensures { waiting_in s t.now q ≡ answer_says result }
{
    let n = words::words_of(words::add_level(s));
    if SMALL < n {
        count_in::<COPY>(t, s, q, n)
    } else {
        count_in::<SMALL>(t, s, q, n)
    }
}

#[tactic(auto, using(words::specs::Laws::measured_fits, words::specs::Laws::measured_limits), unfolding(crate::specs::Waiting::waiting_sized))]
fn waiting_sized(t: &[u16], s: Sizes, q: Queue) -> Result<u32, Refusal>
    requires { measured t.now ≡ Some s }
    ensures { waiting_sized s t.now q ≡ answer_says result }
{
    if conditions::no_queue(s, q) {
        return Err(Refusal::Queue);
    }
    if conditions::is_dequeued(t, s, Level(words::narrow(s.levels)), q) {
        return Err(Refusal::Dequeued);
    }
    count_waiting(t, s, q)
}

// How many nodes dequeues of the queue would return now, begun one after another above all levels.
#[tactic(auto, unfolding(crate::specs::Waiting::waiting_of, crate::specs::Waiting::waiting_measured))]
pub fn waiting(t: &[u16], q: Queue) -> Result<u32, Refusal>
    ensures { waiting_of t.now q ≡ answer_says result }
{
    let s = words::measure(t).ok_or(Refusal::Table)?;
    waiting_sized(t, s, q)
}
