#![tactic(auto)]
// Runs each schedule of the packed corpus: a header with the title and the schedule's length, and the schedule.
ghost use Rattle.std.specs.Prelude.{◌≤◌, IfOk};

use logs::Kind;
use std::io;

// What stands before a schedule: 41 bytes of title, a space, the schedule's length in five digits, and LF.
#[derive(Drop)]
struct Header([u8; 48]);

impl Header {
    fn title(&self) -> &[u8] {
        &self.0[..41]
    }

    // The schedule's length; what is no digit counts as 0.
    fn length(&self) -> usize {
        let mut n = 0;
        for b in &self.0[42..47] {
            n = 10 * n + digit(*b);
        }
        n
    }
}

// kept: what is no digit counts as 0, as the program did on every input.
fn digit(b: u8) -> usize
    ensures { result ≤ 9 }
{
    match b {
        b'0'..=b'9' => usize::from(b - b'0'),
        _ => 0,
    }
}

// A line of the bounds log as the log has it: without the last number of an E line, and the space before it.
fn without_bound(line: &[u8]) -> &[u8] {
    match line.iter().rposition(|b| *b == b' ') {
        Some(space) if line.starts_with(b"E") => &line[..space],
        _ => line,
    }
}

// Whether the bounds log is the same as the log but for the bounds.
fn agree(log: &[u8], bounds: &[u8]) -> bool {
    let lines = bounds.split(|b| *b == b'\n').map(without_bound);
    log.split(|b| *b == b'\n').eq(lines)
}

// What each case is read into and worked on.
#[derive(Drop)]
struct Desk {
    text: [u8; 65537],
    table: [u16; logs::TABLE],
    room: [u8; logs::ROOM],
    second: [u8; logs::BOUNDS_ROOM],
}

impl Desk {
    // Reads n bytes, if the text has room for them, and answers how many there were.
    // kept: a schedule that is too long is run as an empty one, as the program did on every input.
    fn read_text(&mut self, rt: &HostRuntime, n: usize) -> io::Result<usize>
        ensures { IfOk result (λ n. n ≤ 65537) }
    {
        if n <= self.text.len() {
            streams::fill(&mut rt.stdin(), &mut self.text[..n])
        } else {
            Ok(0)
        }
    }

    // The log. The bounds log must be the same but for the bounds: where it is not, a line in the log's place says so.
    fn write_logs(&mut self, rt: &HostRuntime, n: usize) -> io::Result<bool>
        requires { n ≤ 65537 }
    {
        let text = &self.text[..n];
        let Ok(m) = logs::write_log(Kind::Plain, text, &mut self.table, &mut self.room) else {
            return Ok(false);
        };
        let Ok(n) = logs::write_log(Kind::Bounds, text, &mut self.table, &mut self.second) else {
            return Ok(false);
        };
        let log = &self.room[..m];
        if agree(log, &self.second[..n]) {
            rt.write_all(log)?;
        } else {
            rt.write_all(b"the two logs differ in more than the bounds\n")?;
        }
        Ok(true)
    }

    // The next case, if there is one: its title, and its log.
    fn run_case(&mut self, rt: &HostRuntime) -> io::Result<bool> {
        let mut header = Header([0; 48]);
        if streams::fill(&mut rt.stdin(), &mut header.0)? != 48 {
            return Ok(false);
        }
        let n = self.read_text(rt, header.length())?;
        rt.write_all(header.title())?;
        rt.write_all(b"\n")?;
        self.write_logs(rt, n)
    }

    fn run_cases(&mut self, rt: &HostRuntime) -> io::Result<()> {
        for _ in 0..65536u32 {
            if !self.run_case(rt)? {
                return Ok(());
            }
        }
        Ok(())
    }
}

fn main(rt: HostRuntime) -> io::Result<()> {
    let mut desk = Desk {
        text: [0; 65537],
        table: [0; logs::TABLE],
        room: [0; logs::ROOM],
        second: [0; logs::BOUNDS_ROOM],
    };
    desk.run_cases(&rt)
}
