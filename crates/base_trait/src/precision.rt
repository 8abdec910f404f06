//! The numbers that steer how precise an analysis is.
//!
//! A greater one makes tables more precise, and analyses longer. What is proved holds whatever they are, but for what is said beside each;
//! contracts have the same numbers by name (specs/Precision). Numbers that a command may give stand with the options, in
//! `support_command_line`. How many numbers a set holds at most is a parameter of its type: 16 in the sets of `program_base_tasks` and
//! `base_strides`.

/// How many cells a map lists at most, over a base that joins; past that the cell of the greatest key goes into the rest. A base that does not
/// join lists a cell for each key. A key of more numbers than this is any (`eval_operations`, `abstract_semantics` specs/Keys), and the
/// reader of tables takes no map with more cells.
pub const MOST_LISTED: u64 = 256;

/// How many turns of a call within an instruction go as they come, before their arguments are joined. `lmw` and `stmw` of PowerPC take one
/// for each register.
pub const UNROLLED_TURNS: u32 = 64;

/// How many of the turns after these join, before all further ones widen. Widening ends each call, so any number will do.
pub const JOINED_TURNS: u32 = 2;
