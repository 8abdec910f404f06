//! Checked specifications.

use crate::core_term::Core;
use crate::declared::{Data, MapType};
use crate::row::Row;
use crate::term::Term;
use crate::ty::Ty;
use syntax_lexer::Text;

/// A function. Two functions are of one group where each is the other, or each reaches the other by
/// calls. `group` is the least number of a function of its group, and `loops` says whether a function
/// of its group calls a function of that group.
#[derive(Drop)]
pub struct Fun {
    pub name: Text,
    pub params: Vec<Ty>,
    pub result: Ty,
    pub body: Term,
    pub core: Core,
    pub group: u32,
    pub loops: bool,
}

/// The types of instructions and states, and the function from both to a state, by their numbers.
#[derive(Clone, Copy, Drop)]
pub struct Machine {
    pub instr: u32,
    pub state: u32,
    pub interp: u32,
}

/// A checked specification.
pub struct Spec {
    pub datas: Vec<Data>,
    pub maps: Vec<MapType>,
    pub funs: Vec<Fun>,
    pub rows: Vec<Row>,
    pub machine: Option<Machine>,
}

/// Written out, so that what lets a specification go stands once, and not once more in each crate where one is let go.
impl Drop for Spec {
    fn drop(self) {
        let Spec {
            datas: _datas,
            maps: _maps,
            funs: _funs,
            rows: _rows,
            machine: _machine,
        } = self;
    }
}

/// What a specification is wanted for.
#[derive(Clone, Copy, Drop)]
pub enum SpecUse {
    Library,
    Machine,
}
