//! Cases of tests as blocks of text.
//!
//! A file of cases has a block for each case, with an empty line between two of them. A line that begins with `#` is a
//! note. A block's first line is its kind and its name. Each other line is a cell: a word, and the value behind the
//! space, in which a byte may be escaped as in C: `\n`, `\r`, `\t`, `\0`, `\\` and `\x` with two digits. The lines
//! `wanted` say what has to come, with a line feed between two of them.
#![tactic(auto)]

mod block;
mod report;
mod spelling;
mod text;
mod words;

pub use block::{Block, Cell, blocks_of};
pub use report::{Cases, named_blocks, print_verdict, report_files};
pub use text::{filled, noted, number_of, parted, push_all, shown, unknown};
pub use words::{Words, found, given, meant};
