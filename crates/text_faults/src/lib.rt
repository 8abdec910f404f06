//! Why the text of a table or of claims is refused: the first line that it does not have, and which rule it breaks.
//!
//! What reads tables and claims answers these errors, and what writes the line of a run takes the line from them.
#![tactic(auto)]

mod claim_error;
mod table_error;

pub use claim_error::ClaimError;
pub use table_error::TableError;
