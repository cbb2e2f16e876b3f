// Annotation lines: each by its key and value, and how many there are.
ghost use Rattle.std.specs.Prelude.{◌≡◌, ◌<◌, true, length};
ghost use Rattle.grammar.specs.Read.{read_annotation, read_annotations};
ghost use Rattle.grammar.specs.Given.{accepted, fields_in, tail_from, annotation_from};
ghost use Rattle.scan.specs.Steps.{Within, read_as, whole, free_key};

use crate::lines::{Key, Value, closed_run};
use crate::{AT_KEY, DEED_KEY, Found, PINS_KEY, Reading, WRITES_KEY, behind};

// Whether a key with its `=` is none of those that no annotation has; `rule` stays free.
fn is_free(key: &[u8]) -> bool
    ensures { result ≡ free_key key.now }
{
    key != &DEED_KEY[..] && key != &PINS_KEY[..] && key != &WRITES_KEY[..] && key != &AT_KEY[..]
}

// An annotation line, with its line end.
pub(crate) fn annotation_line(rest: &[u8]) -> Reading<()>
    ensures value { result ≡ read_as whole (read_annotation rest.now) }
    ensures size_in_bounds { Within (length rest.now) result }
{
    let key = closed_run::<Key>(rest, 1, 16, b'=')?;
    if !is_free(&rest[..key.size]) {
        return Err(key.value);
    }
    let value = behind(
        key.size,
        closed_run::<Value>(&rest[key.size..], 0, 120, b'\n'),
    )?;
    Ok(Found {
        value: (),
        size: value.size,
    })
}

// How many annotation lines stand there to the end, at most 200.
pub(crate) fn annotation_lines(rest: &[u8]) -> Reading<usize>
    ensures value { result ≡ read_as length (read_annotations rest.now) }
    ensures size_in_bounds { Within (length rest.now) result }
{
    let mut size = 0;
    let mut many = 0;
    // Kept as a `while`: because each turn goes on by the size of the line that it reads, which no range or iterator counts.
    while size < rest.len() {
        if many == 200 {
            return Err(size);
        }
        let line = behind(size, annotation_line(&rest[size..]))?;
        size = line.size;
        many += 1;
    }
    Ok(Found { value: many, size })
}

// Where annotation n of a whole sheet lies, the annotation lines beginning at `from`.
// Kept with the sheet and a place: because `annotation_from`, its promise, is a place of the whole sheet.
pub(crate) fn annotation_start(s: &[u8], from: usize, n: usize) -> usize
    requires s_value { accepted s.now ≡ true }
    requires from_value { (from ≡ tail_from s.now) × (n < length (fields_in s.now).annotations) }
    ensures { result ≡ annotation_from s.now n }
{
    let mut at = from;
    for _ in 0..n {
        let line = annotation_line(&s[at..]).unwrap();
        at += line.size;
    }
    at
}
