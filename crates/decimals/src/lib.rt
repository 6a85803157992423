// Decimal numbers 0 to 65,535 with no leading zero, and fields: a number with the byte that ends it.
#![tactic(auto)]

ghost use Rattle.std.specs.Prelude.{◌≡◌, ◌+◌, ◌-◌, ◌*◌, ◌%◌, ◌≤◌, length};
ghost use Rattle.heads.specs.Put.{Put};
ghost use Rattle.decimals.specs.Decimals.{
  width_of,
  digits_of,
  field_of,
  is_digit,
  goes_on,
  rest_of,
  field_at,
};

#[tactic(auto, unfolding(crate::specs::Decimals::is_digit))]
fn is_digit(b: u8) -> bool
    ensures { result ≡ is_digit b }
{
    b.is_ascii_digit()
}

#[tactic(auto, using(crate::specs::Laws::digit_is), unfolding(crate::specs::Decimals::goes_on))]
fn goes_on(v: usize, b: u8) -> bool
    requires { v ≤ 65535 }
    ensures { result ≡ goes_on v b }
{
    is_digit(b) && 0 < v && v * 10 + usize::from(b - b'0') <= 65535
}

// The field whose digits before place make v.
// kept: tests and adds in usize. `checked_mul` and `checked_add` of a u16 were tried: the log of a 64 KiB schedule takes 8 to 10 in 100
// more instructions.
#[tactic(auto, using(crate::proofs::ReadBack::reads))]
fn read_rest(text: &[u8], place: usize, end: u8, v: usize) -> Option<(u16, usize)>
    requires { (place ≤ length text.now) × (v ≤ 65535) }
    ensures { result ≡ rest_of end text.now v place }
{
    let mut n = v;
    for at in place..text.len() {
        let b = text[at];
        if !goes_on(n, b) {
            return (b == end).then_some((n as u16, at + 1));
        }
        n = n * 10 + usize::from(b - b'0');
    }
    None
}

// The number whose digits stand at a place, with the place after the byte that ends it.
#[tactic(auto, using(crate::proofs::ReadBack::reads))]
pub fn read_field(text: &[u8], place: usize, end: u8) -> Option<(u16, usize)>
    ensures { result ≡ field_at end text.now place }
{
    let b = *text.get(place)?;
    if !is_digit(b) {
        return None;
    }
    read_rest(text, place + 1, end, usize::from(b - b'0'))
}

// How many digits n has.
// kept: width and digits by hand, and no Display or itoa: those write all digits of a number, and digits_of has five at most.
#[tactic(auto, unfolding(crate::specs::Decimals::width_of))]
pub fn width(n: usize) -> usize
    ensures { result ≡ width_of n }
{
    match n {
        0..=9 => 1,
        10..=99 => 2,
        100..=999 => 3,
        1000..=9999 => 4,
        _ => 5,
    }
}

fn digit(n: usize) -> u8
    ensures { result ≡ 48 + n % 10 }
{
    b'0' + (n % 10) as u8
}

// Writes n's digits from place on and answers the place after them: one or two at once, as most numbers of a text
// have no more, and more of them the last one first.
#[tactic(auto, using(crate::specs::Laws::writes))]
pub fn write_digits(room: &mut [u8], place: usize, n: usize) -> usize
    requires { place + length (digits_of n) ≤ length room.old }
    ensures { Put result room.new room.old place (digits_of n) }
{
    if n < 10 {
        room[place] = digit(n);
        return place + 1;
    }
    if n < 100 {
        room[place] = digit(n / 10);
        room[place + 1] = digit(n);
        return place + 2;
    }
    let w = width(n);
    let mut m = n;
    for left in (0..w).rev() {
        room[place + left] = digit(m);
        m /= 10;
    }
    place + w
}

#[tactic(auto, using(crate::specs::Laws::writes))]
pub fn write_field(room: &mut [u8], place: usize, n: u16, end: u8) -> usize
    requires { place + length (field_of n end) ≤ length room.old }
    ensures { Put result room.new room.old place (field_of n end) }
{
    let at = write_digits(room, place, usize::from(n));
    room[at] = end;
    at + 1
}
