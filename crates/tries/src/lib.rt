// The schedules of a few operations, listed as text or counted.
#![tactic(auto)]

ghost use Rattle.std.specs.Prelude.{◌≡◌, true, ◌≤◌, ◌/◌, length, MatchResult};
ghost use Rattle.words.specs.Layout.{limits, words};
ghost use Rattle.answers.specs.Said.{number};
ghost use Rattle.ways.specs.Schedules.{fresh, schedules};
ghost use Rattle.search.specs.declared.What.TheVariants.{Tally};
ghost use Rattle.search.specs.Walk.{sizes_of, ops_of, listed_of};
ghost use Rattle.tries.specs.Tries.{
  sizes,
  why,
  tried_says,
  tries_of,
  number_says,
  number_of,
  tallied_all,
  tallies_of,
  tally_of,
  texts,
  listed_in,
};
ghost use Rattle.tries.specs.Listed.{short};
ghost use Rattle.tries.specs.Number.{Counts, Counting};

use answers::Refusal;
use search::{Asked, Listed, Listing, SMALL, Search, Spot, Stop, WORDS, What};

// Schedules listed and bytes written, and whether there are more.
#[derive(Clone, Copy, PartialEq, Eq, Debug)]
pub struct Tried {
    pub count: u32,
    pub bytes: usize,
    pub more: bool,
}

// More moves than any schedule of six operations has.
pub const MOVES: u16 = 1345;

// A fresh table of the sizes.
fn make_fresh(t: &mut [u16], asked: Asked)
    requires { (limits (sizes_of asked) ≡ true) × (length t.old ≡ words (sizes_of asked)) }
    ensures { t.new ≡ fresh (sizes_of asked) }
{
    // it is not refused
    let _ = fresh::fresh_table(t, asked.levels, asked.queues, asked.nodes);
}

// Every schedule of the operations from a fresh table, which has at most N words.
fn list_in<const N: usize>(request: Search<'_>, room: &mut [u8], tallies: &mut [u64]) -> Listed
    requires { (words (sizes_of request.asked) ≤ N) × (N ≤ 2276) }
    ensures { listed_of request.entry.asked request.entry.ops.now room.old tallies.old ≡ (result, (room.new, tallies.new)) }
{
    let asked = request.asked;
    let s = asked.sizes();
    let w = words::words_of(s);
    let mut table = [0u16; N];
    let mut spare = [0u16; N];
    let t = &mut table[..w];
    make_fresh(t, asked);
    let mut out = Listing {
        listed: Listed {
            count: 0,
            at: 0,
            stop: Stop::Going,
        },
        copy: &mut spare[..w],
        room,
        tallies,
    };
    if asked.operations == 0 {
        let tail = ways::steps_left(t, s, MOVES);
        request.emit_tail(tail, [0u16; 7], &mut out);
        return out.listed;
    }
    // nothing runs yet: no schedule begins with a step
    let at = Spot {
        i: 0,
        left: MOVES,
        n: 0,
        path: [0u16; 7],
    };
    request.explore_begin::<N>(t, at, &mut out);
    out.listed
}

// Every schedule of the operations from a fresh table.
fn list_all(request: Search<'_>, room: &mut [u8], tallies: &mut [u64]) -> Listed
    ensures { listed_of request.entry.asked request.entry.ops.now room.old tallies.old ≡ (result, (room.new, tallies.new)) }
{
    if words::words_of(request.asked.sizes()) <= SMALL {
        list_in::<SMALL>(request, room, tallies)
    } else {
        list_in::<WORDS>(request, room, tallies)
    }
}

// No text has more bytes: 26 of its opening, 20 of each of six operations, 8 of each of seven S lines.
pub const LONGEST: usize = 202;

// Whether the room is too small for the texts that are wanted. Where it has LONGEST bytes for each, it is not; else they are measured.
fn is_short(request: Search<'_>, room: &mut [u8]) -> bool
    ensures { (result ≡ short request.entry.asked request.entry.ops.now room.old) × (room.new ≡ room.old) }
{
    // kept: as, since std has no From of a usize for u64.
    if request.asked.bound <= (room.len() / LONGEST) as u64 {
        return false;
    }
    let asked = Asked {
        what: What::Measure,
        ..request.asked
    };
    let measured = list_all(
        Search {
            asked,
            ops: request.ops,
        },
        room,
        &mut [],
    );
    measured.stop == Stop::Full
}

// The texts in the room; nothing is written where it is too small.
fn list_texts(request: Search<'_>, room: &mut [u8]) -> Result<Tried, Refusal>
    requires { request.asked.bound ≤ 4294967295 }
    ensures { let a = request.entry.asked in
        listed_in (texts (sizes_of a) (ops_of a request.entry.ops.now)) a.bound room.old ≡ (tried_says result, room.new) }
{
    if is_short(request, room) {
        return Err(Refusal::Room);
    }
    let asked = Asked {
        what: What::Write,
        ..request.asked
    };
    let listed = list_all(
        Search {
            asked,
            ops: request.ops,
        },
        room,
        &mut [],
    );
    Ok(Tried {
        // kept: as, since a count is at most the bound, a u32: try_from would bring an error that no caller has.
        count: listed.count as u32,
        bytes: listed.at,
        more: !listed.is_open(),
    })
}

// The search that is asked of these operations, four words each, or the first refusal.
fn ask(
    levels: u16,
    queues: u16,
    nodes: u16,
    ops: &[u16],
    bound: u64,
    what: What,
) -> Result<Search<'_>, Refusal>
    ensures { let k = length ops.now / 4 in let first = why (sizes levels queues nodes) k in
        MatchResult result
        (λ s. (s.asked ≡ record { levels = levels; queues = queues; nodes = nodes; operations = k; bound = bound; what = what })
        × (s.ops.now ≡ ops.now) × (first ≡ 0))
        (λ r. first ≡ number r) }
{
    let asked = Asked {
        levels,
        queues,
        nodes,
        operations: ops.len() / 4,
        bound,
        what,
    };
    if 6 < asked.operations {
        return Err(Refusal::Many);
    }
    if !words::in_limits(asked.sizes()) {
        return Err(Refusal::Sizes);
    }
    Ok(Search { asked, ops })
}

// Every schedule of the operations, four words each, as text, at most bound of them.
// kept: three numbers, as the call for C takes them and hands them on.
pub fn try_schedules(
    levels: u16,
    queues: u16,
    nodes: u16,
    ops: &[u16],
    bound: u32,
    room: &mut [u8],
) -> Result<Tried, Refusal>
    ensures { tries_of levels queues nodes ops.now bound room.old ≡ (tried_says result, room.new) }
{
    let request = ask(levels, queues, nodes, ops, u64::from(bound), What::Write)?;
    list_texts(request, room)
}

// Nothing bounds the count.
pub const UNBOUND: u64 = 18446744073709551615;

// How many schedules there are; their outcomes are counted too, where that is asked.
fn count_all(request: Search<'_>, tallies: &mut [u64]) -> u64
    requires { Counting request.asked }
    ensures value { let a = request.entry.asked in result ≡ length (schedules (sizes_of a) (ops_of a request.entry.ops.now)) }
    ensures tallies_after { let a = request.entry.asked in let ws = request.entry.ops.now in
        a.what ≡ Tally → tallies.new ≡ tallied_all (sizes_of a) ws a.operations (schedules (sizes_of a) (ops_of a ws)) tallies.old }
{
    list_all(request, &mut [], tallies).count
}

fn count_as(
    what: What,
    levels: u16,
    queues: u16,
    nodes: u16,
    ops: &[u16],
    tallies: &mut [u64],
) -> Result<u64, Refusal>
    requires { Counts what }
    ensures ops_value { number_of levels queues nodes ops.now ≡ number_says result }
    ensures tallies_value { what ≡ Tally → tallies_of levels queues nodes ops.now tallies.old ≡ tallies.new }
{
    let request = ask(levels, queues, nodes, ops, UNBOUND, what)?;
    Ok(count_all(request, tallies))
}

// How many schedules there are.
// kept: two public names with a promise each (number_of, tally_of) over count_as.
pub fn count_schedules(levels: u16, queues: u16, nodes: u16, ops: &[u16]) -> Result<u64, Refusal>
    ensures { number_of levels queues nodes ops.now ≡ number_says result }
{
    count_as(What::Count, levels, queues, nodes, ops, &mut [])
}

// How many schedules there are; in the tallies each of them is counted under its outcome.
pub fn tally_schedules(
    levels: u16,
    queues: u16,
    nodes: u16,
    ops: &[u16],
    tallies: &mut [u64],
) -> Result<u64, Refusal>
    ensures { tally_of levels queues nodes ops.now tallies.old ≡ (number_says result, tallies.new) }
{
    count_as(What::Tally, levels, queues, nodes, ops, tallies)
}
