#![tactic(auto)]
// What the log programs do: a schedule on standard input, its log on standard output.
ghost use Rattle.std.specs.Prelude.{◌<◌, ◌^◌};

use logs::Kind;

// In lent text, table and room: 65,537 bytes of text, so that one too many is seen, and what write_log asks for.
// kept: text, table and room are lent apart: each has its own borrow, and write_log's promise names each.
pub fn print_log(
    rt: &HostRuntime,
    kind: Kind,
    text: &mut [u8],
    table: &mut [u16],
    room: &mut [u8],
) {
    let Some(n) = streams::read_input(rt, text) else {
        return;
    };
    match logs::write_log(kind, &text[..n], table, room) {
        Ok(m) => {
            streams::write_output(rt, &room[..m]);
        }
        Err(_) => streams::say(rt, b"bench: the table or the room is too small\n"),
    }
}

// The same with a text, a table and a room of its own: of so many bytes as every log of its kind fits.
pub fn run<const ROOM: usize>(rt: &HostRuntime, kind: Kind)
    requires { ROOM < 2 ^ 63 }
{
    let mut text = [0u8; 65537];
    let mut table = [0u16; logs::TABLE];
    let mut room = [0u8; ROOM];
    print_log(rt, kind, &mut text, &mut table, &mut room);
}
