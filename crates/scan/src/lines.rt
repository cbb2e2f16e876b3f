// Runs of bytes of a class, and lines made of a key and such a run.
ghost use Rattle.std.specs.Prelude.{◌≡◌, ◌≤◌, ℕ, Bool, length};
ghost use Rattle.text.specs.Combine.{span, common, read_fixed, read_closed, read_led};
ghost use Rattle.text.specs.Hex.{hex_byte};
ghost use Rattle.grammar.specs.Sheet.{deed_byte, key_byte, value_byte};
ghost use Rattle.grammar.specs.Read.{rule_byte};
ghost use Rattle.scan.specs.Steps.{Within, read_as, whole};

use crate::{Found, Reading, behind};

// A class of bytes that fields are made of.
pub(crate) trait Class {
    ghost class: { ℕ → Bool };

    // Whether b is a byte of the class.
    fn has(b: u8) -> bool
        ensures { result ≡ class b };
}

// The bytes of a deed.
pub(crate) struct Deed;

impl Class for Deed {
    ghost class = { deed_byte };

    fn has(b: u8) -> bool {
        matches!(b, b'A'..=b'Z' | b'0'..=b'9' | b'-')
    }
}

// The digits of hex numbers.
pub(crate) struct Hex;

impl Class for Hex {
    ghost class = { hex_byte };

    fn has(b: u8) -> bool {
        matches!(b, b'0'..=b'9' | b'A'..=b'F')
    }
}

// The bytes of an annotation's key.
pub(crate) struct Key;

impl Class for Key {
    ghost class = { key_byte };

    fn has(b: u8) -> bool {
        matches!(b, b'a'..=b'z' | b'-')
    }
}

// The bytes of an annotation's value.
pub(crate) struct Value;

impl Class for Value {
    ghost class = { value_byte };

    fn has(b: u8) -> bool {
        b != b'\n'
    }
}

// The digits of a rule.
pub(crate) struct RuleDigit;

impl Class for RuleDigit {
    ghost class = { rule_byte };

    fn has(b: u8) -> bool {
        matches!(b, b'1'..=b'2')
    }
}

// How many bytes of the class the rest begins with, counting no further than `most`.
fn run<C: Class>(rest: &[u8], most: usize) -> usize
    ensures { result ≡ span C.class most rest.now }
{
    rest[..rest.len().min(most)]
        .iter()
        .take_while(|b| C::has(**b))
        .count()
}

// How many of the bytes of a key the rest begins with.
fn common_bytes(rest: &[u8], key: &[u8]) -> usize
    ensures { result ≡ common key.now rest.now }
{
    rest.iter()
        .zip(key)
        .take_while(|pair| pair.0 == pair.1)
        .count()
}

// The bytes of a key.
#[tactic(auto, using(crate::proofs::Runs::common_most, crate::proofs::Runs::common_within))]
pub(crate) fn word(rest: &[u8], key: &[u8]) -> Reading<()>
    ensures value { result ≡ read_as whole (read_fixed key.now rest.now) }
    ensures size_in_bounds { Within (length rest.now) result }
{
    let n = common_bytes(rest, key);
    if n < key.len() {
        return Err(n);
    }
    Ok(Found { value: (), size: n })
}

// Bytes of a class, at least `lo` and at most `hi`, closed by the byte `end`, and how many they are without it.
#[tactic(auto, using(crate::proofs::Runs::span_within))]
pub(crate) fn closed_run<C: Class>(rest: &[u8], lo: usize, hi: usize, end: u8) -> Reading<usize>
    ensures value { result ≡ read_as length (read_closed C.class lo hi end rest.now) }
    ensures size_in_bounds { Within (length rest.now) result }
{
    let n = run::<C>(rest, hi);
    if lo <= n && n < rest.len() && rest[n] == end {
        return Ok(Found {
            value: n,
            size: n + 1,
        });
    }
    Err(n)
}

// A line of the key, bytes of a class, at least `lo` and at most `hi`, and the line end, and how many bytes of the class they are.
pub(crate) fn keyed_line<C: Class>(rest: &[u8], key: &[u8], lo: usize, hi: usize) -> Reading<usize>
    ensures value { result ≡ read_as length (read_led key.now (read_closed C.class lo hi 10) rest.now) }
    ensures size_in_bounds { Within (length rest.now) result }
{
    let begun = word(rest, key)?;
    behind(
        begun.size,
        closed_run::<C>(&rest[begun.size..], lo, hi, b'\n'),
    )
}
