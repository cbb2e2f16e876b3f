// The number of writes, their lines, and the numbers that hex digits make.
ghost use Rattle.std.specs.Prelude.{◌≡◌, ◌^◌, ◌<◌, ◌≤◌, IfOk, true, length};
ghost use Rattle.text.specs.Combine.{All, read_led, read_times};
ghost use Rattle.text.specs.Hex.{hex_byte, unhex, hex_value, read_hex};
ghost use Rattle.grammar.specs.Read.{closing as closingRead, more, read_second, read_number, read_count, read_at};
ghost use Rattle.grammar.specs.Given.{padded};
ghost use Rattle.scan.specs.Steps.{Within, read_as, itself};

use crate::lines::{Hex, keyed_line, word};
use crate::{AT_KEY, Found, Reading, WRITES_KEY, behind};

// The number of the hex digit b.
// Kept as a function: because b is known to be a digit, and `to_digit` would answer an option that is never empty.
fn digit_of(b: u8) -> u16
    requires { hex_byte b ≡ true }
    ensures { result ≡ unhex b }
{
    if b <= b'9' {
        return u16::from(b - b'0');
    }
    u16::from(b - b'A' + 10)
}

// The number that hex digits make.
#[tactic(auto, using(text::proofs::Hexes::all_at, text::proofs::Hexes::value_all))]
fn hex_value(digits: &[u8]) -> u16
    requires size { length digits.now ≤ 4 }
    requires all { All hex_byte digits.now }
    ensures { result ≡ hex_value digits.now }
{
    let mut v = 0;
    for b in digits {
        v = 16 * v + digit_of(*b);
    }
    v
}

// A line of the key and `many` hex digits, and the number that they make.
pub(crate) fn hex_line(rest: &[u8], key: &[u8], many: usize) -> Reading<u16>
    requires { many ≤ 4 }
    ensures value { result ≡ read_as itself (read_led key.now (read_hex many 10) rest.now) }
    ensures number_in_bounds { IfOk result (λ found. found.value < 16 ^ many) }
    ensures size_in_bounds { Within (length rest.now) result }
{
    let line = keyed_line::<Hex>(rest, key, many, many)?;
    let from = key.len();
    Ok(Found {
        value: hex_value(&rest[from..from + many]),
        size: line.size,
    })
}

// The line end, after the number v.
fn closing(rest: &[u8], v: u8) -> Reading<usize>
    ensures value { result ≡ read_as itself (closingRead v rest.now) }
    ensures size_in_bounds { Within (length rest.now) result }
{
    match rest {
        [b'\n', ..] => Ok(Found {
            value: usize::from(v),
            size: 1,
        }),
        _ => Err(0),
    }
}

// Whether c is a second digit after d: d is not 0, and the number is at most 64.
fn is_more(d: u8, c: u8) -> bool
    requires { d ≤ 9 }
    ensures { result ≡ more d c }
{
    matches!(c, b'0'..=b'9') && 1 <= d && 10 * d + (c - b'0') <= 64
}

// What follows the first digit d of the number of writes: a second digit or none, and the line end.
fn second_digit(rest: &[u8], d: u8) -> Reading<usize>
    requires { d ≤ 9 }
    ensures value { result ≡ read_as itself (read_second d rest.now) }
    ensures size_in_bounds { Within (length rest.now) result }
{
    match rest {
        [c, end @ ..] if is_more(d, *c) => behind(1, closing(end, 10 * d + (*c - b'0'))),
        _ => closing(rest, d),
    }
}

// The number of writes, and the line end.
fn write_number(rest: &[u8]) -> Reading<usize>
    ensures value { result ≡ read_as itself (read_number rest.now) }
    ensures size_in_bounds { Within (length rest.now) result }
{
    match rest {
        [b @ b'0'..=b'9', end @ ..] => behind(1, second_digit(end, *b - b'0')),
        _ => Err(0),
    }
}

// The line `writes=`, and the number of writes.
pub(crate) fn count_line(rest: &[u8]) -> Reading<usize>
    ensures value { result ≡ read_as itself (read_count rest.now) }
    ensures size_in_bounds { Within (length rest.now) result }
{
    let begun = word(rest, &WRITES_KEY)?;
    behind(begun.size, write_number(&rest[begun.size..]))
}

// `count` lines `at=`, and their addresses.
pub(crate) fn write_lines(rest: &[u8], count: usize) -> Reading<[u16; 64]>
    requires { count ≤ 64 }
    ensures value { result ≡ read_as (padded 64) (read_times read_at count rest.now) }
    ensures size_in_bounds { Within (length rest.now) result }
{
    let mut writes = [0; 64];
    let mut size = 0;
    for write in &mut writes[..count] {
        let line = behind(size, hex_line(&rest[size..], &AT_KEY, 4))?;
        *write = line.value;
        size = line.size;
    }
    Ok(Found {
        value: writes,
        size,
    })
}
