#![tactic(auto)]
// Standard input and output for the programs, each a thin main over a proved function.
//
// ./bench goes by what a program wrote on standard error, and not by its exit status. A line that begins `bench: ` says that the
// program failed; any other line there is progress. Both are written through `say`, whole lines with their LF.
ghost use Rattle.std.specs.Prelude.{◌≡◌, ℕ, ◌-◌, ◌<◌, ◌≤◌, take, drop, length, IfSome, IfOk, OnErr};
ghost use Rattle.std.specs.Io.KnownBytes.{Consumes, Keeps, IsAtEnd};

use std::io;
use std::io::Read;

// One line for the person who waits. Where it cannot be written, nobody is left to be told.
pub fn say(rt: &HostRuntime, line: &[u8]) {
    let _ = rt.stderr().write_all(line);
}

// One read, into the room from a place on.
fn read_on<R: Read>(input: &mut R, room: &mut [u8], from: usize) -> io::Result<usize>
    requires { from ≤ length room.old }
    ensures len { length room.new ≡ length room.old }
    ensures in_room { IfOk result (λ n. n ≤ length room.old - from) }
    ensures front { take from room.new ≡ take from room.old }
    ensures bytes { IfOk result (λ n.
        Consumes (R.remaining input.old) (R.remaining input.new) (take n (drop from room.new))) }
    ensures end { IfOk result (λ n. n ≡ 0 → from < length room.old → IsAtEnd (R.remaining input.new)) }
    ensures err { OnErr result (Keeps (R.remaining input.old) (R.remaining input.new)) }
{
    input.read(&mut room[from..])
}

// Reads the input to its end, or until the room is full, and answers how many bytes stand at the room's start. Where a read fails, what
// came before it stands there: nothing that was read is lost.
pub fn fill<R: Read>(input: &mut R, room: &mut [u8]) -> io::Result<usize>
    ensures in_room { IfOk result (λ n. n ≤ length room.new) }
    ensures bytes { IfOk result (λ n. Consumes (R.remaining input.old) (R.remaining input.new) (take n room.new)) }
    ensures end { IfOk result (λ n. n < length room.new → IsAtEnd (R.remaining input.new)) }
    ensures err { OnErr result ((n : ℕ) × (n ≤ length room.new)
        × Consumes (R.remaining input.old) (R.remaining input.new) (take n room.new)) }
{
    let mut done = 0;
    // kept: each turn is a read that brings as much as it will; no method of std answers how much came before the end or a failure
    while done < room.len() {
        let n = read_on(input, room, done)?;
        if n == 0 {
            return Ok(done);
        }
        done += n;
    }
    Ok(done)
}

// Reads standard input to its end, or until the room is full, and answers how many bytes stand at the room's start; none, where a read
// failed, which has been said.
pub fn read_input(rt: &HostRuntime, room: &mut [u8]) -> Option<usize>
    ensures { IfSome result (λ n. n ≤ length room.new) }
{
    let read = fill(&mut rt.stdin(), room);
    if read.is_err() {
        say(rt, b"bench: standard input could not be read\n");
    }
    read.ok()
}

// Writes the bytes to standard output and answers whether all could be written. A failure has been said.
pub fn write_output(rt: &HostRuntime, bytes: &[u8]) -> bool {
    let written = rt.write_all(bytes);
    if written.is_err() {
        say(rt, b"bench: standard output could not be written\n");
    }
    written.is_ok()
}
