// A fresh table.
#![tactic(auto)]

ghost use Rattle.std.specs.Prelude.{◌≡◌, ◌++◌, ◌≤◌, length, replicate, drop};
ghost use Rattle.words.specs.Inner.{Small, Fits};
ghost use Rattle.answers.specs.Said.{answer_says};
ghost use Rattle.fresh.specs.Fresh.{ended, fresh_table, fresh_of};

use answers::Refusal;
use words::{Queue, Sizes, Word};

// The first n words become 0.
fn clear(t: &mut [u16], n: usize)
    requires { n ≤ length t.old }
    ensures { t.new ≡ replicate n 0 ++ drop n t.old }
{
    t[..n].fill(0);
}

// kept: t and s beside each other, as in words.
fn put_ends(t: &mut [u16], s: Sizes)
    requires { Fits s t.old }
    ensures { t.new ≡ ended s s.queues t.old }
{
    for i in 0..s.queues {
        let q = words::narrow(i) + 1;
        words::store(t, s, Word::Head(Queue(q)), q);
        words::store(t, s, Word::Tail(Queue(q)), q);
    }
}

#[tactic(auto, unfolding(crate::specs::Fresh::fresh_table))]
fn make_fresh(t: &mut [u16], s: Sizes)
    requires { Fits s t.old }
    ensures { t.new ≡ fresh_table s t.old }
{
    clear(t, words::words_of(s));
    put_ends(t, s);
    words::put_counts(t, s);
}

#[tactic(auto, using(words::specs::Laws::fits_is), unfolding(crate::specs::Fresh::fresh_of))]
fn fresh_sized(t: &mut [u16], s: Sizes) -> Result<(), Refusal>
    requires { Small s }
    ensures { fresh_of s t.old ≡ (answer_says result, t.new) }
{
    if !words::in_limits(s) {
        return Err(Refusal::Sizes);
    }
    if t.len() < words::words_of(s) {
        return Err(Refusal::Table);
    }
    make_fresh(t, s);
    Ok(())
}

// Makes t a fresh table of these sizes.
// kept: three numbers, as the call for C takes them and hands them on.
pub fn fresh_table(t: &mut [u16], levels: u16, queues: u16, nodes: u16) -> Result<(), Refusal>
    ensures { fresh_of (record { levels = levels; queues = queues; nodes = nodes }) t.old ≡ (answer_says result, t.new) }
{
    fresh_sized(
        t,
        Sizes {
            levels: usize::from(levels),
            queues: usize::from(queues),
            nodes: usize::from(nodes),
        },
    )
}
