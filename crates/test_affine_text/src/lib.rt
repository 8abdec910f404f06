//! State values of affine relations as text: as they are written, and with changes that a text says.
//!
//! *Text.* `push_state` writes a state value, the fields of its constructor behind `opened`: `opened 1000 5 [*any 0=7 1=0,0,0,1]`. A word is
//! `any`, a constant in hex, or the numbers of a form, the constant first; a map is its rest behind a `*` and then its listed keys.
//!
//! *Changes.* A `Setting` is a specification with the domain for it. `changed_state` opens an element at 1000 and gives the state value
//! behind changes with a `;` between, each on what the one before it leaves. A change is `CELL := WORD`, where a cell is the number
//! of a field, the counter being 0, with a key if it is a map: `1`, or `2[0]`. A word is `any`, a constant `=5` in hex, a cell, or the
//! sum or product of two such, as `2[0] + =5`. Cells and words of changes are of 32 bits.
//!
//! *What is proved.* A state value with changes is one of the states of the setting.
#![tactic(auto)]

mod changes;
mod forms;
mod setting;
mod text;
mod words;

pub use changes::changed_state;
pub use setting::Setting;
pub use text::{push_state, push_tracked};
