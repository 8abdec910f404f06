//! The numbers of options that are not given. Contracts have them by name (specs/Defaults); FORMATS says them to users, and `--help` too.

/// How many steps a run has at most (`--steps`).
pub const DEFAULT_STEPS: u32 = 1_000_000;

/// How many turns an activation of a run has (`--calls`).
pub const DEFAULT_CALLS: u32 = 4096;

/// To how many addresses an instruction may go in an analysis (`--limit`). A greater number lets jumps by tables through.
pub const DEFAULT_LIMIT: u32 = 64;

/// How many changes of an element join before later ones widen (`--widen`, less 1). A greater one keeps more of loops that end soon, and the
/// bound on transfers grows with it.
pub const DEFAULT_JOINS: u32 = 3;

/// How often over an element is split before its instruction is evaluated (`--cases`). A greater number keeps the cases of more comparisons of an instruction apart, and
/// costs an evaluation for each case.
pub const DEFAULT_CASES: u32 = 0;
