// Tries reports: document 01's example, sheets of each other status, and sheets broken in each kind of line; then reports after an operation on the record. Prints each with its report.
#![tactic(auto)]

use answer::{Answer, Refusal};
use std::io;
use trial::{NumberAndPlace, Output, Quoted, cut};

// The example, and with pins=10, external text.
const EXAMPLES: [&[u8]; 2] = [
    b"deed=K-104\npins=20\nwrites=3\nat=FFC1\nat=FFC9\nat=FFD6\nplan-note=north corner\ncolour=\n",
    b"deed=K-104\npins=10\nwrites=3\nat=FFC1\nat=FFC9\nat=FFD6\nplan-note=north corner\ncolour=\n",
];

// Each other status in the report's order.
const STATUSES: [&[u8]; 11] = [
    b"deed=K\npins=40\nwrites=0\n",
    b"deed=K\npins=20\nwrites=1\nat=FFD9\na=b\n",
    b"deed=K\npins=20\nwrites=2\nat=FFD9\nat=FFD8\n",
    b"deed=K\npins=20\nwrites=2\nat=FFC1\nat=FFBF\n",
    b"deed=K\npins=FF\nwrites=1\nat=0000\n",
    b"deed=K\npins=FF\nwrites=1\nat=FFD9\n",
    b"deed=K\npins=10\nwrites=1\nat=FFD9\n",
    b"deed=K\npins=30\nwrites=1\nat=FFD3\n",
    b"deed=K\npins=06\nwrites=0\n",
    b"deed=K\npins=1F\nwrites=0\n",
    b"deed=K\npins=2F\nwrites=0\n",
];

// The rule, given: as it is without it, rule 2 with a note under the same key, and one that is refused.
const RULES: [&[u8]; 3] = [
    b"deed=K\npins=20\nrule=1\nwrites=0\n",
    b"deed=K\npins=20\nrule=2\nwrites=1\nat=FFC9\nrule=1\n",
    b"deed=K\npins=20\nrule=2\nwrites=1\nat=FFD9\na=b\n",
];

// A sheet broken in each kind of line.
const BROKEN: [&[u8]; 7] = [
    b"",
    b"deed=k\n",
    b"deed=K\npins=2a\n",
    b"deed=K\npins=20\nrule=3\n",
    b"deed=K\npins=20\nwrites=65\n",
    b"deed=K\npins=20\nwrites=1\nat=0\n",
    b"deed=K\npins=20\nwrites=0\nA=\n",
];

// Prints the sheets, each with its report.
fn reports(rt: &impl Print, sheets: &[&[u8]]) -> io::Result<()> {
    for &sheet in sheets {
        println!(rt; "report of {}", Quoted(sheet))?;
        let text = report_text::report(sheet);
        rt.write_all(cut(&text.bytes, text.len))?;
    }
    Ok(())
}

// Prints a sheet and its report after an operation on its record.
fn report_after(rt: &impl Print, sheet: &[u8], answer: Answer) -> io::Result<()> {
    println!(rt;
        "report after: {} of {}",
        NumberAndPlace(answer),
        Quoted(sheet)
    )?;
    let text = report_text::report_after(sheet, answer);
    rt.write_all(cut(&text.bytes, text.len))
}

// Operations done and refused on accepted sheets, and on refused ones.
fn after(rt: &impl Print) -> io::Result<()> {
    let lettered = b"deed=K\npins=20\nwrites=0\na=b\n";
    let noted = b"deed=K\npins=20\nwrites=0\na=b\nc=\n";
    let text = b"deed=K\npins=00\nwrites=0\n";
    let external = b"deed=K\npins=10\nwrites=0\na=b\n";
    let ruled = b"deed=K\npins=20\nrule=2\nwrites=0\na=b\n";
    let above = b"deed=K\npins=40\nwrites=0\na=b\n";
    report_after(rt, lettered, Ok(0))?;
    report_after(rt, noted, Err(Refusal::ImageLength))?;
    report_after(rt, text, Err(Refusal::FontLength))?;
    report_after(rt, lettered, Err(Refusal::Stray(49152)))?;
    report_after(rt, lettered, Err(Refusal::BrokenSheet(7)))?;
    report_after(rt, external, Err(Refusal::NotValid(5791)))?;
    report_after(rt, lettered, Err(Refusal::NotSuited))?;
    report_after(rt, lettered, Err(Refusal::NotFitted(1536)))?;
    report_after(rt, ruled, Ok(0))?;
    report_after(rt, above, Err(Refusal::ImageLength))?;
    report_after(rt, b"deed=k\n", Err(Refusal::ImageLength))
}

fn main(rt: HostRuntime) -> io::Result<()> {
    let rt = Output { rt };
    reports(&rt, &EXAMPLES)?;
    reports(&rt, &STATUSES)?;
    reports(&rt, &RULES)?;
    reports(&rt, &BROKEN)?;
    after(&rt)
}
