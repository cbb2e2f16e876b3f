// One pass over a sheet where it lies: its fields, and the places of its deed and its annotation lines.
#![tactic(auto)]

mod lines;
mod notes;
mod numbers;
mod rules;

ghost use Rattle.std.specs.Prelude.{◌≡◌, length};
ghost use Rattle.grammar.specs.Read.{read_sheet};
ghost use Rattle.grammar.specs.Given.{fields_in, annotation_from, line_at};
ghost use Rattle.scan.specs.Steps.{Fits, behind as behindReading, outline_of};

use lines::{Deed, keyed_line};
use notes::{annotation_line, annotation_lines, annotation_start};
use numbers::{hex_line, write_lines};
use rules::ruled_count;
use settings::Rule;

// The keys of the fixed lines, as they stand in a sheet and in a report.
pub const DEED_KEY: [u8; 5] = *b"deed=";

pub const PINS_KEY: [u8; 5] = *b"pins=";

pub const RULE_KEY: [u8; 5] = *b"rule=";

const WRITES_KEY: [u8; 7] = *b"writes=";

const AT_KEY: [u8; 3] = *b"at=";

// What a reading finds at the start of some bytes, and how many bytes it reads.
#[derive(Clone, Copy)]
struct Found<T> {
    value: T,
    size: usize,
}

// A reading: what it finds, or the place where it sticks, counted from its own beginning.
type Reading<T> = Result<Found<T>, usize>;

// The same reading counted from `before` bytes further ahead, behind which it stands.
fn behind<T>(before: usize, reading: Reading<T>) -> Reading<T>
    requires { Fits before reading }
    ensures { result ≡ behindReading before reading }
{
    match reading {
        Ok(found) => Ok(Found {
            value: found.value,
            size: before + found.size,
        }),
        Err(place) => Err(before + place),
    }
}

// What one pass over a sheet finds: its fields, the length of its deed and where its annotations begin.
// The writes are kept with their count: because `outline_of`, the promise of `survey`, has 64 places, and the library takes no allocator.
#[derive(Clone, Copy)]
pub struct Outline {
    pub deed: usize,
    pub pins: u8,
    pub rule: Rule,
    pub writes: [u16; 64],
    pub write_count: usize,
    pub tail: usize,
    pub annotations: usize,
}

// Where a part of a sheet begins, and its number of bytes.
#[derive(Clone, Copy)]
pub struct Span {
    pub from: usize,
    pub size: usize,
}

// One pass over a sheet, line by line in their order, or the place where the sheet is broken.
pub fn survey(s: &[u8]) -> Result<Outline, usize>
    ensures { result ≡ outline_of (read_sheet s.now) }
{
    let deed = keyed_line::<Deed>(s, &DEED_KEY, 1, 16)?;
    let pins = behind(deed.size, hex_line(&s[deed.size..], &PINS_KEY, 2))?;
    let ruled = behind(pins.size, ruled_count(&s[pins.size..]))?;
    let (rule, write_count) = ruled.value;
    let lines = behind(ruled.size, write_lines(&s[ruled.size..], write_count))?;
    // Kept as a local: because the prover does not cover an array's field that is made part of a literal.
    let writes = lines.value;
    let notes = behind(lines.size, annotation_lines(&s[lines.size..]))?;
    Ok(Outline {
        deed: deed.value,
        pins: pins.value as u8,
        rule,
        writes,
        write_count,
        tail: lines.size,
        annotations: notes.value,
    })
}

// Where annotation line n, counted from 0, lies, and how long it is without its line end; past the last, and of a refused sheet, both are 0.
// Kept without an option: because `from_value` and `size_value`, its promise, give both numbers there too.
pub fn annotation(s: &[u8], n: usize) -> Span
    ensures from_value { result.from ≡ annotation_from s.now n }
    ensures size_value { result.size ≡ length (line_at (fields_in s.now).annotations n) }
{
    match survey(s) {
        Ok(found) if n < found.annotations => {
            let from = annotation_start(s, found.tail, n);
            let line = annotation_line(&s[from..]).unwrap();
            Span {
                from,
                size: line.size - 1,
            }
        }
        _ => Span { from: 0, size: 0 },
    }
}
