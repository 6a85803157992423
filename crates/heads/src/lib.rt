// The fixed words of a line, as byte strings: compared and written.
#![tactic(auto)]

ghost use Rattle.std.specs.Prelude.{◌≡◌, ◌+◌, ◌≤◌, length};
ghost use Rattle.heads.specs.Heads.{stands_at};
ghost use Rattle.heads.specs.Put.{Put};

pub fn stands_at(text: &[u8], place: usize, head: &[u8]) -> bool
    ensures { result ≡ stands_at head.now text.now place }
{
    text.get(place..).unwrap_or(&[]).starts_with(head)
}

// Writes head from place on, and answers the place after it.
// kept: a room and a place as two parameters, here and in decimals, lines, entries and writing. Methods of a struct of both are no plainer:
// those of five crates would be needed, and only the crate that declares a struct can give it methods.
pub fn write_head(room: &mut [u8], place: usize, head: &[u8]) -> usize
    requires { place + length head.now ≤ length room.old }
    ensures { Put result room.new room.old place head.now }
{
    let next = place + head.len();
    room[place..next].copy_from_slice(head);
    next
}
