//! Lines for standard error that say what to do after a refusal.
//!
//! A run that has no answer writes one line, as `spec 90 P1`. `help` says it in sentences: the line of the text and the place in it,
//! what the code means, and what to do; of words that have no meaning, which word it is and what is wanted there. It is a function of
//! the words, of what was written, and of the text that was written of, which the caller reads again (`text_for` names it):
//!
//! ```text
//! line 3, column 46
//!     fun half(x: INT32) -> INT32 = shru(x, 1:32;
//!                                              ^
//! P1: the first token with which no specification goes on; where the text ends too early, its end
//! ```
//!
//! It says something of answers too that are mostly not what was meant: a table without a block, a run without a step, a listing in
//! which no word has a decoding.
//!
//! Of a table that is left open it has one line for each open block (`OpenBlocks`): the address, why it is open, and from where the word comes that
//! may be too many addresses. Over a base that tells uses these are in the table. Over another one the caller makes the step at the block once more,
//! over a base that does: `entry_of` is the entry of it, and `reads_of` says of its table, and of what the element at the block says, what it reads.
//!
//! The sentences stand in one table (src/sentences.rt), which the documents print. What words have a form is asked of `support_command_line`
//! alone: a word is wrong where words that have a form else have none with it.
//!
//! What is proved: `place_of` is the place of a byte, `sentence_of` gives a row of the code that was asked for, and all calls are safe and end.
#![tactic(auto)]

mod asked;
mod element_cells;
mod forms;
mod lines;
mod open_block;
mod open_blocks;
mod parts;
mod places;
mod sentences;
mod shown;
mod step_entry;
mod step_reads;
mod table_lines;
mod trial;
mod word_lines;
mod words_fault;
mod written;

pub use asked::{NamedMachine, machine_for, parts_for, text_for};
pub use lines::{Again, Run, help};
pub use open_block::OpenBlock;
pub use open_blocks::OpenBlocks;
pub use places::{Place, place_of};
pub use sentences::{Sentence, sentence_of};
pub use step_entry::entry_of;
pub use step_reads::reads_of;
