// Arguments, whole files and standard input, for the programs: what fails of a file is said in a sentence on standard error.
#![tactic(auto)]

// Kept as parameters, the handle, the program's name and the path: because each function bounds its handle by no more than it does, and
// tools/check knows by that parameter what needs no line in the claims' list.
mod reading;
mod writing;

pub use reading::{Failure, LONGEST_PATH, argument, read, read_input};
pub use writing::{check_free, remove, write_new};
