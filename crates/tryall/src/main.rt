#![tactic(auto)]
// The program tries: every schedule of the task on standard input, or how many there are and their outcomes.
ghost use Rattle.std.specs.Prelude.{◌≤◌};

use trying::{Asked, NoRoom};

// 20,000 times tries::LONGEST: so many texts are listed in it without being measured first.
const ROOM: usize = 4040000;

const LARGE_ROOM: usize = 16777216;

// Prints the schedules from so much room, which is not laid into main: in all but the large one a stack of 8 MB is enough.
#[inline(never)]
fn print_from<const N: usize>(rt: &HostRuntime, text: &[u8], bound: u32) -> Result<(), NoRoom>
    requires { N ≤ 16777216 }
{
    let mut room = [0u8; N];
    trying::print_answer(rt, text, Asked::Schedules(bound), &mut room)
}

// So many texts as need no more than the small room are not tried in the large one first.
fn list(rt: &HostRuntime, text: &[u8], bound: u32) -> Result<(), NoRoom> {
    if bound <= 20000 && print_from::<ROOM>(rt, text, bound).is_ok() {
        return Ok(());
    }
    print_from::<LARGE_ROOM>(rt, text, bound)
}

fn answer(rt: &HostRuntime, text: &[u8]) {
    match trying::read_arguments(rt) {
        Some(Asked::Schedules(bound)) => {
            if list(rt, text, bound).is_err() {
                streams::say(
                    rt,
                    b"bench: so many schedules do not fit the room; -n with a smaller number lists fewer\n",
                );
            }
        }
        Some(Asked::Outcomes) => trying::print_outcomes(rt, text),
        None => streams::say(rt, b"bench: tries takes -n and a number, or -c\n"),
    }
}

fn main(rt: HostRuntime) {
    let mut text = [0u8; 65537];
    if let Some(n) = streams::read_input(&rt, &mut text) {
        answer(&rt, &text[..n]);
    }
}
