//! Texts of elements and tables and what is read of them: one another's inverse. Nothing runs.
//!
//! # Elements
//!
//! *Told* (specs/RoundTrips): where an element is read, the lines that were taken are whole, their text is one of that element, and the
//! element is printable. *Back*: a text of an element that fits and is printable is read as that element, whatever follows that does not
//! go on with it: nothing, or a text that begins with `part `, `use `, `next `, `exit `, `open `, `undecodable ` or `at `.
//! The same of words of 32 bits (specs/Words), as those of a line `open WORD`.
//!
//! | law | elements |
//! |---|---|
//! | `cells_round_trip` | cells over each base whose texts tell its words and notes, where fields of states have names, and keys are told apart (`HasFields` of state_text) |
//! | `relations_round_trip` | affine relations; the rows that are read are those that were written, modulo 2^32 |
//! | `pairs_round_trip` | pairs, where it is so of both parts |
//! | `cells_words_tell`, `relations_words_tell`, `pairs_words_tell` | words of 32 bits; of a pair where no text of the first part has a space |
//! | `cells_begin`, `relations_begin`, `pairs_begin` | each text begins with the line of a part, which the law of pairs asks of the second part |
//!
//! # Tables
//!
//! A text that is read is one of the table that is read, byte for byte, in format 2 or in format 1; and a table that is read is one that its
//! texts tell. The other way round each text of such a table is read as that table, so that two tables with one text are alike, and what
//! `convert` writes is the table that it read. Tables of analyses are such tables: what is printed of an analysis is read as its table, and the
//! verdict on what is read of it is that it is accepted.
//!
//! A table may be left open (`fixpoint_open_tables`): what is said of it is said of the table with its endings, and of one without endings
//! as of any table.
//!
//! The laws stand on the round trip of elements and of words, on the laws of their readings, on fields of states whose names and keys tell
//! uses, and on an image in which nothing is wrong (`HasParts`). The fields of each machine that was checked are such fields.
//!
//! | law | says |
//! |---|---|
//! | `open_texts_are_told`, `open_tables_read_are_writable`, `open_texts_are_read`, `open_texts_tell_tables` | the next four, of tables with their endings |
//! | `texts_are_told` | a text that is read is one of the table that is read |
//! | `tables_read_are_writable` | a table that is read is one that its texts tell: it is printable, and its blocks are of the code |
//! | `texts_are_read` | a text of such a table is read as that table |
//! | `texts_tell_tables` | tables with one text are alike |
//! | `converted_texts_are_read` | what is written of a table that was read is read as that table, with its endings |
//! | `fitting_tables_are_of_code` | blocks of a table of an analysis that fits, and fits the image, are of its code |
//! | `traces_are_writable` | the table of a trace is one that its texts tell |
//! | `texts_of_traces_are_accepted` | a text of the table of a complete legal trace is read as that table, and as none that is not accepted |
//! | `open_traces_are_writable`, `texts_of_open_traces_are_accepted` | the same of an analysis that is left open, with its endings |
//! | `machines_have_use_texts` | fields of machines that were checked tell uses |
//!
//! Told is line by line: what was read of lines is a text, and the lines behind it are left (proofs/Added). The head is told as a whole, as its
//! lines are compared with those that are wanted. A text is read by the lines that it begins with: each part ends before a line of another form.
#![tactic(auto)]

mod domain;
pub mod laws;

pub use domain::WrittenDomain;
pub use laws::PlainTexts;
