//! How much commands read.

/// How many bytes an entry may have.
pub const ENTRY_CAP: u32 = 65_536;

/// How many bytes a table may have.
pub const TABLE_CAP: u32 = 67_108_864;

/// How many bytes claims may have.
pub const CLAIMS_CAP: u32 = 65_536;
