// The line protocol without the calls behind it: lines from standard input (input), the words of a line as a table of
// requests asks for them (table, words), and what a call said, printed in the form that the table has for it (said, waiting). It
// serves the judges' program alone. What that program takes from the words of a line and hands back is promised in full; of reading
// and printing that it is safe and ends, since the stored run and the judges hold what is read and printed.
#![tactic(auto)]

pub mod input;
mod parts;
pub mod said;
pub mod table;
pub mod waiting;
pub mod words;
