// What the table is asked: whether a queue is quiet, and which nodes are in it.
#![tactic(auto)]

ghost use Rattle.std.specs.Prelude.{◌≡◌, true, ◌+◌, ◌≤◌, length, eqb};
ghost use Rattle.words.specs.declared.Word.TheVariants.{Head};
ghost use Rattle.words.specs.Layout.{has};
ghost use Rattle.words.specs.Inner.{Fits};
ghost use Rattle.answers.specs.Said.{answer_says};
ghost use Rattle.asks.specs.Quiet.{quiet_of};
ghost use Rattle.asks.specs.Listing.{chain, nodes_of, listed, listing_sized, listing_of};
ghost use Rattle.asks.specs.Inner.{weight, counted, RoomFor, written, put};

use answers::Refusal;
use words::{Node, Queue, Sizes, Word};

#[tactic(auto, using(words::specs::Laws::measured_fits), unfolding(crate::specs::Quiet::quiet_of, crate::specs::Quiet::quiet_measured))]
pub fn quiet(t: &[u16], q: Queue) -> Result<bool, Refusal>
    ensures { quiet_of t.now q ≡ answer_says result }
{
    let s = words::measure(t).ok_or(Refusal::Table)?;
    if conditions::no_queue(s, q) {
        Err(Refusal::Queue)
    } else {
        Ok(!conditions::is_unquiet(t, s, q))
    }
}

// A node is compared with a queue by number: the sentinel of queue q is node q.
fn is_sentinel(q: Queue, c: Node) -> bool
    ensures { result ≡ eqb c.0 q.0 }
{
    c.0 == q.0
}

#[tactic(auto, unfolding(crate::specs::Inner::weight))]
fn weight_of(q: Queue, c: Node) -> u16
    ensures value { result ≡ weight q.0 c.0 }
    ensures upper_bound { result ≤ 1 }
{
    u16::from(!is_sentinel(q, c))
}

// How many nodes the chain has but the sentinel, or none where it is one of refusal 10: a link past the table's nodes, or more links.
// kept: t and s beside each other, as in words.
fn count_chain(t: &[u16], s: Sizes, q: Queue, head: Node) -> Option<u16>
    requires { Fits s t.now }
    ensures { result ≡ counted 0 (chain s t.now q.0 s.nodes head.0) }
{
    let mut c = head;
    let mut n = 0;
    for _ in 0..s.nodes {
        if c.0 == 0 {
            return Some(n);
        }
        if s.nodes < usize::from(c.0) {
            return None;
        }
        n += weight_of(q, c);
        c = Node(words::load(t, s, Word::Next(c)));
    }
    if c.0 == 0 { Some(n) } else { None }
}

// Puts node c at place i, unless it is the sentinel, and answers the next place.
// kept: the next place is answered: of the nodes one may be the sentinel, which takes no place. Links are numbers in lent words, which C
// lends too.
#[tactic(auto, unfolding(crate::specs::Inner::weight, crate::specs::Inner::put))]
fn put_node(room: &mut [u16], i: usize, q: Queue, c: Node) -> usize
    requires { i + weight q.0 c.0 ≤ length room.old }
    ensures { (result ≡ i + weight q.0 c.0) × (room.new ≡ put q.0 c.0 i room.old) }
{
    if is_sentinel(q, c) {
        i
    } else {
        room[i] = c.0;
        i + 1
    }
}

// Writes the nodes of a chain that ends.
fn write_chain(t: &[u16], s: Sizes, q: Queue, head: Node, room: &mut [u16])
    requires fits { Fits s t.now }
    requires room_for { RoomFor (chain s t.now q.0 s.nodes head.0) 0 room.old }
    ensures { room.new ≡ written (chain s t.now q.0 s.nodes head.0) 0 room.old }
{
    let mut c = head;
    let mut at = 0;
    for _ in 0..s.nodes {
        if c.0 == 0 {
            return;
        }
        at = put_node(room, at, q, c);
        c = Node(words::load(t, s, Word::Next(c)));
    }
}

fn list_nodes(t: &[u16], s: Sizes, q: Queue, room: &mut [u16]) -> Result<u16, Refusal>
    requires fits { Fits s t.now }
    requires q_value { has s (Head q) ≡ true }
    ensures { listed (nodes_of s t.now q) room.old ≡ (answer_says result, room.new) }
{
    let head = Node(words::load(t, s, Word::Head(q)));
    if head.0 == 0 {
        return Err(Refusal::Damaged);
    }
    let Some(n) = count_chain(t, s, q, head) else {
        return Err(Refusal::Damaged);
    };
    if room.len() < usize::from(n) {
        return Err(Refusal::Room);
    }
    write_chain(t, s, q, head, room);
    Ok(n)
}

#[tactic(auto, using(conditions::specs::Laws::has_queue), unfolding(crate::specs::Listing::listing_sized))]
fn list_sized(t: &[u16], s: Sizes, q: Queue, room: &mut [u16]) -> Result<u16, Refusal>
    requires { Fits s t.now }
    ensures { listing_sized s t.now q room.old ≡ (answer_says result, room.new) }
{
    if conditions::no_queue(s, q) {
        return Err(Refusal::Queue);
    }
    if conditions::is_unquiet(t, s, q) {
        return Err(Refusal::Unquiet);
    }
    list_nodes(t, s, q, room)
}

// Writes the queue's nodes from head on into the room, and answers how many.
#[tactic(auto, using(words::specs::Laws::measured_fits), unfolding(crate::specs::Listing::listing_of, crate::specs::Listing::listing_measured))]
pub fn listing(t: &[u16], q: Queue, room: &mut [u16]) -> Result<u16, Refusal>
    ensures { listing_of t.now q room.old ≡ (answer_says result, room.new) }
{
    let s = words::measure(t).ok_or(Refusal::Table)?;
    list_sized(t, s, q, room)
}
