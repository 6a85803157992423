// The conditions of the refusals that several calls share.
#![tactic(auto)]

ghost use Rattle.std.specs.Prelude.{◌≡◌, true, ◌-◌, ◌≤◌, ◌<◌};
ghost use Rattle.words.specs.declared.Word.TheVariants.{Use};
ghost use Rattle.words.specs.Layout.{has};
ghost use Rattle.words.specs.Inner.{Fits};
ghost use Rattle.conditions.specs.Conditions.{
  sought,
  some,
  no_level,
  no_queue,
  no_node,
  busy,
  in_use,
  dequeued,
  unquiet,
};

use words::{Frame, Level, Node, Queue, Sizes, Word};

// What is sought among the frames: one that runs, one that runs on a queue, a dequeue of a queue.
// kept: an enum and no closure: the definitions sought and some, of which the refusals are made, speak of it.
#[derive(Clone, Copy)]
pub enum Sought {
    Running,
    RunningOn(Queue),
    DequeueOn(Queue),
}

// kept: op is a number, as in words::Frame.
#[tactic(auto, unfolding(crate::specs::Conditions::sought))]
fn is_sought(w: Sought, f: Frame) -> bool
    ensures { result ≡ sought w f }
{
    match w {
        Sought::Running => f.op != 0,
        Sought::RunningOn(q) => f.op != 0 && f.queue == q,
        Sought::DequeueOn(q) => f.op == 2 && f.queue == q,
    }
}

// Whether one of the levels from..to has a frame that is sought.
// kept: t and s beside each other, as in words.
fn some_level(t: &[u16], s: Sizes, w: Sought, from: usize, to: usize) -> bool
    requires fits { Fits s t.now }
    requires to_le_levels { to ≤ s.levels }
    ensures { result ≡ some s t.now w from (to - from) }
{
    for i in from..to {
        let l = Level(words::narrow(i));
        if is_sought(w, words::read_frame(t, s, l)) {
            return true;
        }
    }
    false
}

#[tactic(auto, unfolding(crate::specs::Conditions::no_level))]
pub fn no_level(s: Sizes, l: Level) -> bool
    ensures { result ≡ no_level s l }
{
    s.levels <= l.index()
}

#[tactic(auto, unfolding(crate::specs::Conditions::no_queue))]
pub fn no_queue(s: Sizes, q: Queue) -> bool
    ensures { result ≡ no_queue s q }
{
    !words::between(1, s.queues, usize::from(q.0))
}

#[tactic(auto, unfolding(crate::specs::Conditions::no_node))]
pub fn no_node(s: Sizes, n: Node) -> bool
    requires { s.queues < 65536 }
    ensures { result ≡ no_node s n }
{
    !words::between(s.queues + 1, s.nodes, usize::from(n.0))
}

#[tactic(auto, unfolding(crate::specs::Conditions::busy))]
pub fn is_busy(t: &[u16], s: Sizes, l: Level) -> bool
    requires { Fits s t.now }
    ensures { result ≡ busy s t.now l }
{
    some_level(t, s, Sought::Running, l.index(), s.levels)
}

#[tactic(auto, unfolding(crate::specs::Conditions::in_use))]
pub fn in_use(t: &[u16], s: Sizes, n: Node) -> bool
    requires fits { Fits s t.now }
    requires n_value { has s (Use n) ≡ true }
    ensures { result ≡ in_use s t.now n }
{
    words::load(t, s, Word::Use(n)) != 0
}

#[tactic(auto, unfolding(crate::specs::Conditions::dequeued))]
pub fn is_dequeued(t: &[u16], s: Sizes, l: Level, q: Queue) -> bool
    requires fits { Fits s t.now }
    requires l_le_levels { l.0 ≤ s.levels }
    ensures { result ≡ dequeued s t.now l q }
{
    some_level(t, s, Sought::DequeueOn(q), 0, l.index())
}

#[tactic(auto, unfolding(crate::specs::Conditions::unquiet))]
pub fn is_unquiet(t: &[u16], s: Sizes, q: Queue) -> bool
    requires { Fits s t.now }
    ensures { result ≡ unquiet s t.now q }
{
    some_level(t, s, Sought::RunningOn(q), 0, s.levels)
}
