// The report: reads a sheet from standard input and prints what a clerk sees.
#![tactic(auto)]

// Prints the report of a sheet.
fn print(rt: &(impl Print + Eprint), sheet: &[u8]) {
    let text = report_text::report(sheet);
    let bytes = &text.bytes[..];
    if rt.write_all(&bytes[..text.len]).is_err() {
        let _ = eprintln!(rt; "report: the output is not whole");
    }
}

// The longest sheet has 28,159 bytes, and what lies past one byte more cannot change the report (`report_enough` of crate `report_text`).
fn main(rt: HostRuntime) {
    let mut sheet = [0u8; 28160];
    match files::read_input(&rt, &mut sheet) {
        Ok(sheet) => print(&rt, sheet),
        Err(_) => {
            let _ = eprintln!(rt; "report: the input cannot be read");
        }
    }
}
