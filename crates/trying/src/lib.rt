#![tactic(auto)]
// What the program tries does: it reads a task, and prints its schedules, or how many there are and their outcomes.
ghost use Rattle.std.specs.Prelude.{◌≡◌};
ghost use Rattle.answers.specs.Said.{number};
ghost use Rattle.loglines.specs.Lines.{text_line};
ghost use Rattle.trying.specs.Trying.{
  pen_says,
  answer_says,
  laid,
  refused_told,
  list_told,
  count_told,
  asked_told,
};
ghost use Rattle.trying.specs.Bounds.{digit_on, bound_in};

use answers::Refusal;
use loglines::Sheet;
use std::env::{Env, FillError};
use tasks::TaskError;
use text::Opening;

// What is asked for: the schedules, so many at most; or the outcomes.
#[derive(Clone, Copy, Debug, PartialEq, Eq)]
pub enum Asked {
    Schedules(u32),
    Outcomes,
}

// How many bytes at the room's start are the answer, and whether there are more schedules than these.
#[derive(Clone, Copy, Debug, PartialEq, Eq)]
pub struct Answer {
    pub bytes: usize,
    pub more: bool,
}

// The room is too small for the answer.
#[derive(Clone, Copy, Debug, PartialEq, Eq)]
pub struct NoRoom;

// So many are listed where no number is given.
const BOUND: u32 = 20000;

// ---- the arguments

// One digit more, if it is one and the number stays within 32 bits.
// kept: no decimals::read_rest, whose numbers have 16 bits, no leading zero and a byte that ends them (specs: digit_on).
#[tactic(auto, unfolding(crate::specs::Bounds::digit_on))]
fn add_digit(n: u32, b: u8) -> Option<u32>
    ensures { result ≡ digit_on n b }
{
    if !b.is_ascii_digit() {
        return None;
    }
    n.checked_mul(10)?.checked_add(u32::from(b - b'0'))
}

// The number that these digits are.
fn read_bound(digits: &[u8]) -> Option<u32>
    ensures { result ≡ bound_in digits.now }
{
    if digits.is_empty() {
        return None;
    }
    let mut n = 0;
    for b in digits {
        n = add_digit(n, *b)?;
    }
    Some(n)
}

// What the program's arguments ask for: none, `-n B` or `-c`.
pub fn read_arguments(rt: &impl Env) -> Option<Asked> {
    let mut word = [0u8; 16];
    let n = match rt.arg(1, &mut word) {
        Ok(n) => n,
        Err(FillError::NotPresent) => return Some(Asked::Schedules(BOUND)),
        Err(FillError::TooLong) => return None,
    };
    if word[..n].starts_with(b"-c") {
        return Some(Asked::Outcomes);
    }
    if !word[..n].starts_with(b"-n") {
        return None;
    }
    let m = rt.arg(2, &mut word).ok()?;
    Some(Asked::Schedules(read_bound(&word[..m])?))
}

// ---- the answer, in lent room

// How many bytes are written, if the room reached.
fn whole(written: Option<usize>) -> Result<Answer, NoRoom>
    ensures { answer_says result ≡ pen_says written }
{
    let bytes = written.ok_or(NoRoom)?;
    Ok(Answer { bytes, more: false })
}

// `T line`
#[tactic(auto, unfolding(crate::specs::Trying::laid))]
fn tell_wrong(line: usize, room: &mut [u8]) -> Result<Answer, NoRoom>
    ensures { laid (text_line line) room.old ≡ (answer_says result, room.new) }
{
    let mut sheet = Sheet { room, at: Some(0) };
    sheet.put_text_refusal(line);
    whole(sheet.at)
}

// `R 0 number`, but for the room that is too small
#[tactic(auto, unfolding(crate::specs::Trying::laid, crate::specs::Trying::refused_told))]
fn tell_refused(why: Refusal, room: &mut [u8]) -> Result<Answer, NoRoom>
    ensures { refused_told (number why) room.old ≡ (answer_says result, room.new) }
{
    if let Refusal::Room = why {
        return Err(NoRoom);
    }
    let mut sheet = Sheet { room, at: Some(0) };
    sheet.put_refusal(0, why.into());
    whole(sheet.at)
}

fn list_schedules(o: Opening, ops: &[u16], bound: u32, room: &mut [u8]) -> Result<Answer, NoRoom>
    ensures { list_told bound room.old o ops.now ≡ (answer_says result, room.new) }
{
    match tries::try_schedules(o.levels, o.queues, o.nodes, ops, bound, room) {
        Ok(tried) => Ok(Answer {
            bytes: tried.bytes,
            more: tried.more,
        }),
        Err(why) => tell_refused(why, room),
    }
}

fn count_schedules(o: Opening, ops: &[u16], room: &mut [u8]) -> Result<Answer, NoRoom>
    ensures { count_told room.old o ops.now ≡ (answer_says result, room.new) }
{
    let mut tallies = [0u64; outcomes::TALLIES];
    match tries::tally_schedules(o.levels, o.queues, o.nodes, ops, &mut tallies) {
        Ok(n) => whole(outcomes::write_outcomes(n, &tallies, o.queues, room).ok()),
        Err(why) => tell_refused(why, room),
    }
}

// The texts of the task's schedules one after another, at most so many; or how many schedules it has, and how many lead to each outcome.
// Where the task has none, the line that says why.
pub fn write_answer(text: &[u8], asked: Asked, room: &mut [u8]) -> Result<Answer, NoRoom>
    ensures { asked_told asked text.now room.old ≡ (answer_says result, room.new) }
{
    let mut words = [0u16; tasks::WORDS];
    match tasks::read_task(text, &mut words) {
        Ok(o) => {
            let n = 4 * usize::from(o.events);
            let ops = &words[..n];
            match asked {
                Asked::Schedules(bound) => list_schedules(o, ops, bound, room),
                Asked::Outcomes => count_schedules(o, ops, room),
            }
        }
        Err(TaskError::Line(bad)) => tell_wrong(bad.0, room),
        Err(TaskError::TooMany) => tell_refused(Refusal::Many, room),
    }
}

// ---- standard output

// Prints the answer, and says where there are more schedules than it has. Prints nothing where the room is too small.
pub fn print_answer(
    rt: &HostRuntime,
    text: &[u8],
    asked: Asked,
    room: &mut [u8],
) -> Result<(), NoRoom> {
    let answer = write_answer(text, asked, room)?;
    streams::write_output(rt, &room[..answer.bytes]);
    if answer.more {
        streams::say(rt, b"bench: there are more schedules than these\n");
    }
    Ok(())
}

// Prints how many schedules there are, and their outcomes, from a room of its own, which is enough.
#[inline(never)]
pub fn print_outcomes(rt: &HostRuntime, text: &[u8]) {
    let mut room = [0u8; outcomes::LINES];
    if print_answer(rt, text, Asked::Outcomes, &mut room).is_err() {
        streams::say(rt, b"bench: the outcomes do not fit the room\n");
    }
}
