//! Named inputs, a sink, and whole reads and writes over them.
//!
//! `Inputs` are opened by name, one at a time, and read piece by piece; a `Sink` takes pieces. Contracts see how they stand
//! as one value, `InputState` or `SinkState`: what each name holds, what of the open input is left, what was written, how
//! many faults were counted, which names are sure, for how many bytes there is room. Each clause is a fact on the state
//! before a call and the state after it; `InputsKept` and `SinkKept` say what stays through every call.
//!
//! | | tells its bytes | fails |
//! |---|---|---|
//! | `MemInputs`, `MemSink` | yes | where it is told to |
//! | `SureInputs`, `SureSink` | yes | at a name that is not held; never while there is room |
//! | `FileInputs`, `StdSink` | no | where the system does |
//!
//! What is proved: `read_whole` gives all bytes of a name, answers `TooLong` exactly past its cap, and takes at most one byte
//! more; `write_whole` writes all bytes in order, or a front of them. A call that fails counts one fault, one that succeeds
//! counts none, and nothing fails at a sure name or where there is room. So a caller that sees no fault counted knows that none was
//! passed over. Files and standard output tell nothing; the work for them is in `read_front` and `write_front`, over any reader and
//! writer, whose contracts say which bytes are handed on.
#![tactic(auto)]

mod append;
mod failing_calls;
mod file_inputs;
mod inputs;
mod mem_inputs;
mod mem_sink;
mod named_files;
mod sink;
mod std_sink;
mod sure_inputs;
mod sure_sink;
mod whole_read;
mod whole_write;

pub use file_inputs::FileInputs;
pub use inputs::{Failed, Inputs};
pub use mem_inputs::MemInputs;
pub use mem_sink::MemSink;
pub use sink::Sink;
pub use std_sink::StdSink;
pub use sure_inputs::SureInputs;
pub use sure_sink::SureSink;
pub use whole_read::{ReadError, read_whole};
pub use whole_write::{WriteFault, write_whole};
