//! How values are spelled in lines of text: decimal numbers, hexadecimal digits, fields, lines.
//!
//! A text is lines of ASCII, each ended by a line feed (10). A line is fields, one space (32)
//! between two of them. A number is decimal digits with no leading zero, `0` for zero; or exactly
//! 2, 4 or 8 digits of `0` to `9` and `A` to `F`. So each value has one spelling, and bytes that
//! are the spelling of none are refused.
//!
//! `Fields` goes over the fields of a line, or the lines of a text, and reads them; most fields it
//! reads where they stand (`near.rt`), with no look for their end. `read_hex8` reads one whole
//! field, and `is_word` compares one with a text. None of this takes memory.
//!
//! `read_input` and `read_until` read an input to its end, whole or block by block, and never more
//! of it than is allowed. Contracts hold for every reader. What they say of the bytes is what
//! `std::io::Read` lets a reader promise; any error of a reader is a failed read, and nothing is
//! tried again. No clause can say that no other error comes, however long the input is.
//!
//! `put_front` writes bytes of which the first are known to be written, where a write fails. `put_text` writes a text of any
//! origin so that a terminal shows it and nothing else.
#![tactic(auto)]

mod decimal;
mod fields;
mod front;
mod hex;
mod near;
mod places;
mod reading;
mod shown;
mod words;

pub use fields::Fields;
pub use front::put_front;
pub use hex::{digit, hex2, hex4, hex8, read_hex8};
pub use reading::{Block, ENDLESS, InputFault, read_input, read_until, skip_rest};
pub use shown::{LONGEST_TEXT, put_letter, put_text};
pub use words::is_word;
