// The sheet: what it holds, and its deed and its annotation lines as parts of the lent bytes.
#![tactic(auto)]

ghost use Rattle.std.specs.Prelude.{length};
ghost use Rattle.promises.specs.Part.{PartOf};
ghost use Rattle.grammar.specs.Sheet.{lines};
ghost use Rattle.grammar.specs.Given.{fields_in, deed_from, tail_from, annotation_from, line_at};
ghost use Rattle.sheet.specs.Held.{HeldIn};

use answer::{Answer, Refusal};
use scan::DEED_KEY;
use settings::Rule;

// What a sheet holds: its pins, its rule, its write addresses with 0 in the places that are not used, and its number of annotations.
// A refused sheet's answer has the place; its rule is 1 and its other fields are 0.
// Kept with the answer beside the fields: because `HeldIn`, the promise of `read`, gives every field of a refused sheet too.
// The writes are kept with their count: because `HeldIn` has 64 places, and the library takes no allocator.
#[derive(Clone, Copy)]
pub struct Sheet {
    pub answer: Answer,
    pub pins: u8,
    pub rule: Rule,
    pub writes: [u16; 64],
    pub write_count: usize,
    pub annotations: usize,
}

// Reads a sheet: what it holds, or where it is broken.
pub fn read(sheet: &[u8]) -> Sheet
    ensures { HeldIn sheet.now result }
{
    match scan::survey(sheet) {
        Ok(found) => {
            // Kept as a local: because the prover does not cover an array's field that is made part of a literal.
            let writes = found.writes;
            Sheet {
                answer: Ok(0),
                pins: found.pins,
                rule: found.rule,
                writes,
                write_count: found.write_count,
                annotations: found.annotations,
            }
        }
        Err(place) => Sheet {
            answer: Err(Refusal::BrokenSheet(place)),
            pins: 0,
            rule: Rule::One,
            writes: [0; 64],
            write_count: 0,
            annotations: 0,
        },
    }
}

// The deed, as a part of the sheet; of a refused sheet, empty.
pub fn deed(sheet: &[u8]) -> &[u8]
    ensures { PartOf sheet.entry result (deed_from sheet.now) (length (fields_in sheet.now).deed) }
{
    let Ok(found) = scan::survey(sheet) else {
        return &sheet[..0];
    };
    let from = DEED_KEY.len();
    let end = from + found.deed;
    &sheet[from..end]
}

// Annotation line n from 0, without its line end; past the last, and of a refused sheet, empty.
pub fn annotation(sheet: &[u8], n: usize) -> &[u8]
    ensures { PartOf sheet.entry result (annotation_from sheet.now n) (length (line_at (fields_in sheet.now).annotations n)) }
{
    let found = scan::annotation(sheet, n);
    let from = found.from;
    let end = from + found.size;
    &sheet[from..end]
}

// All annotation lines as they stand, with their line ends: the end of the sheet.
pub fn tail(sheet: &[u8]) -> &[u8]
    ensures { PartOf sheet.entry result (tail_from sheet.now) (length (lines (fields_in sheet.now).annotations)) }
{
    let Ok(found) = scan::survey(sheet) else {
        return &sheet[..0];
    };
    let from = found.tail;
    &sheet[from..]
}
