// What the trial programs share: settings and buffers, made and read, and what is printed of a run.
#![tactic(auto)]

ghost use Rattle.std.specs.Prelude.{◌≡◌, ◌+◌, ◌*◌, ◌%◌, ◌<◌, min, length, ◌==◌, slice_index, set, Some};
ghost use Rattle.promises.specs.Choose.{choose};
ghost use Rattle.promises.specs.Part.{PartOf};
ghost use Rattle.promises.specs.Written.{written};
ghost use Rattle.settings.specs.declared.Rule.TheVariants.{One, Two};
ghost use Rattle.trial.specs.Printed.{hex_pair};
ghost use Rattle.trial.specs.Buffers.{run, laid, marked, unchanged_from, sum_of};

use answer::Answer;
use settings::{Look, Rule, Settings};
use std::{fmt, io};

// == Settings and buffers: made, cut short, and read.

// A look by its pins.
pub fn look_of(pins: usize) -> Look
    ensures { result.pins ≡ pins % 256 }
{
    Look {
        pins: (pins % 256) as u8,
    }
}

// A rule by its number: 2, and for every other number 1.
// Kept as a number: because `settings_of` is public, and its signature and `rule_value` have it so.
fn rule_of(number: usize) -> Rule
    ensures { result ≡ choose (number == 2) Two One }
{
    if number == 2 { Rule::Two } else { Rule::One }
}

// Settings by their word, pins and rule.
pub fn settings_of(word: usize, pins: usize, rule: usize) -> Settings
    ensures word_value { result.word ≡ word % 65536 }
    ensures pins_value { result.look.pins ≡ pins % 256 }
    ensures rule_value { result.rule ≡ choose (rule == 2) Two One }
{
    Settings {
        word: (word % 65536) as u16,
        look: look_of(pins),
        rule: rule_of(rule),
    }
}

// The first n bytes, or all where there are fewer.
pub fn cut(s: &[u8], n: usize) -> &[u8]
    ensures { PartOf s.entry result 0 (min n (length s.now)) }
{
    &s[..n.min(s.len())]
}

// The byte at a place, 0 past the end.
// Kept as a test and an index: because the edit past_the_numbers is a wrong test here, and with `get` there is none to be wrong.
pub fn byte_at(s: &[u8], i: usize) -> usize
    ensures { result ≡ slice_index s.now i }
{
    if i < s.len() { usize::from(s[i]) } else { 0 }
}

// Puts a byte at a place, if there is one.
// Kept as a test and an index: because `get_mut` promises nothing of the slice after a write through what it lends.
pub fn put(s: &mut [u8], place: usize, byte: u8)
    ensures { s.new ≡ set s.old place byte }
{
    if place < s.len() {
        s[place] = byte;
    }
}

// The number of a place's run, where runs have `per` places; 0 everywhere where `per` is 0.
fn run(per: usize, k: usize) -> usize
    ensures { result ≡ run per k }
{
    k.checked_div(per).unwrap_or(0)
}

// The byte laid at a place.
fn laid(first: u8, times: u8, per: usize, k: usize) -> u8
    ensures { result ≡ laid first times per k }
{
    let moved = usize::from(first) + usize::from(times) * (k % 256);
    ((moved + run(per, k) % 256) % 256) as u8
}

// Lays a byte at every place: one that `times` moves on from place to place, and each run of `per` places by one more.
#[tactic(auto, using(promises::proofs::Fills::none, promises::proofs::Fills::more, promises::proofs::Fills::upto, promises::proofs::Fills::filled_written))]
pub fn lay(s: &mut [u8], first: u8, times: u8, per: usize)
    ensures { s.new ≡ written (laid first times per) (length s.old) s.old }
{
    for (i, byte) in s.iter_mut().enumerate() {
        *byte = laid(first, times, per, i);
    }
}

// Marks a buffer: a byte of its own at each of 256 places.
pub fn mark(s: &mut [u8])
    ensures { s.new ≡ written marked (length s.old) s.old }
{
    lay(s, 131, 5, 0);
}

// Where a buffer is kept from, by where it is before a place and by the byte there.
fn unchanged_past(from: usize, b: u8, i: usize) -> usize
    requires { i < 18446744073709551615 }
    ensures { result ≡ choose (b == marked i) from (i + 1) }
{
    if b == laid(131, 5, 0, i) {
        return from;
    }
    i + 1
}

// The place from which on a buffer is as it was marked: 0 where it was kept whole.
#[tactic(auto, using(crate::proofs::Buffers::unchanged_none, crate::proofs::Buffers::unchanged_more))]
pub fn unchanged_from(s: &[u8]) -> usize
    ensures { result ≡ unchanged_from s.now }
{
    let mut from = 0;
    for (i, &byte) in s.iter().enumerate() {
        from = unchanged_past(from, byte, i);
    }
    from
}

// A sum with one byte more.
fn next_sum(n: usize, b: u8) -> usize
    requires { n < 65521 }
    ensures { result ≡ (n * 31 + b) % 65521 }
{
    (n * 31 + usize::from(b)) % 65521
}

// A sum that each byte and its place counts in.
#[tactic(auto, using(crate::proofs::Buffers::sum_none, crate::proofs::Buffers::sum_more))]
pub fn sum(s: &[u8]) -> usize
    ensures { result ≡ sum_of s.now }
{
    let mut n = 0;
    for &byte in s {
        n = next_sum(n, byte);
    }
    n
}

// == What is printed: answers, what a line is under, and bytes. A program prints them by its formats.

// Standard output as the trial programs write it: where a write fails, this is said on standard error, and the trial goes on.
#[derive(Drop)]
pub struct Output<R> {
    pub rt: R,
}

impl<R: Eprint> Output<R> {
    // Says so where something was not written whole.
    fn look_at(&self, written: io::Result<()>) {
        if written.is_err() {
            let _ = eprintln!(self.rt; "the output is not whole");
        }
    }
}

impl<R: Print + Eprint> Print for Output<R> {
    fn print<D: fmt::Display + Drop>(&self, value: D) -> io::Result<()> {
        self.look_at(self.rt.print(value));
        Ok(())
    }

    fn println<D: fmt::Display + Drop>(&self, value: D) -> io::Result<()> {
        self.look_at(self.rt.println(value));
        Ok(())
    }

    fn write_all(&self, bytes: &[u8]) -> io::Result<()> {
        self.look_at(self.rt.write_all(bytes));
        Ok(())
    }
}

// An answer's number and place.
#[derive(Clone, Copy)]
pub struct NumberAndPlace(pub Answer);

impl fmt::Display for NumberAndPlace {
    fn fmt<W: fmt::Write>(&self, f: &mut fmt::Formatter<W>) -> fmt::Result {
        let number = answer::number(self.0);
        let place = answer::place(self.0);
        write!(f, "number {number} place {place}")
    }
}

// An answer's number, place and value.
#[derive(Clone, Copy)]
pub struct Answered(pub Answer);

impl fmt::Display for Answered {
    fn fmt<W: fmt::Write>(&self, f: &mut fmt::Formatter<W>) -> fmt::Result {
        let value = answer::value(self.0);
        write!(f, "{} value {value}", NumberAndPlace(self.0))
    }
}

// The number of the figure that a line is, if it is one.
#[derive(Clone, Copy)]
pub struct Figure(pub Option<u8>);

impl fmt::Display for Figure {
    fn fmt<W: fmt::Write>(&self, f: &mut fmt::Formatter<W>) -> fmt::Result {
        match self.0 {
            Some(n) => write!(f, "P{n} "),
            None => Ok(()),
        }
    }
}

// The number of a rule.
#[derive(Clone, Copy)]
pub struct RuleNumber(pub Rule);

impl fmt::Display for RuleNumber {
    fn fmt<W: fmt::Write>(&self, f: &mut fmt::Formatter<W>) -> fmt::Result {
        f.write_str(match self.0 {
            Rule::One => "1",
            Rule::Two => "2",
        })
    }
}

// The rule that a line is under, if it is rule 2.
#[derive(Clone, Copy)]
pub struct Under(pub Rule);

impl fmt::Display for Under {
    fn fmt<W: fmt::Write>(&self, f: &mut fmt::Formatter<W>) -> fmt::Result {
        match self.0 {
            Rule::One => Ok(()),
            Rule::Two => write!(f, "rule 2 "),
        }
    }
}

// A byte by its hex digits.
#[derive(Clone, Copy)]
struct Hex(u8);

impl fmt::Display for Hex {
    ghost output = { λ h. Some (hex_pair h.0) };

    fn fmt<W: fmt::Write>(&self, f: &mut fmt::Formatter<W>) -> fmt::Result {
        let byte = self.0;
        write!(f, "{byte:02X}")
    }
}

// Prints a byte so that it can be read: a line end as \n, other control bytes and those above 126 by their hex digits.
fn escape<W: fmt::Write>(f: &mut fmt::Formatter<W>, byte: u8) -> fmt::Result {
    match byte {
        b'\n' => write!(f, "\\n"),
        32..=126 => write!(f, "{}", char::from(byte)),
        _ => write!(f, "\\x{}", Hex(byte)),
    }
}

// Bytes in brackets, each so that it can be read.
#[derive(Clone, Copy)]
pub struct Quoted<'a>(pub &'a [u8]);

impl fmt::Display for Quoted<'_> {
    fn fmt<W: fmt::Write>(&self, f: &mut fmt::Formatter<W>) -> fmt::Result {
        write!(f, "[")?;
        for &byte in self.0 {
            escape(f, byte)?;
        }
        write!(f, "]")
    }
}
