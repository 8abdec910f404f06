//! The type of abstract values.

use crate::constructors::{Constructor, Constructors, Present};
use abstract_map::AbstractMap;
use base_trait::{Base, Tri};
use std::rc::Rc;

/// A value of abstract words.
pub enum AbstractValue<B: Base> {
    /// The truth values that it may be.
    Flag(Tri),
    /// A word of a width in bits.
    Word {
        /// The width.
        w: u32,
        /// The word.
        x: B::Word,
    },
    /// A constructor value.
    Data {
        /// The datatype's number.
        ty: u32,
        /// Its constructors, with the fields of each that is present.
        cases: Constructors<AbstractValue<B>>,
    },
    /// A map.
    Map {
        /// The map type's number.
        map: u32,
        /// Its cells.
        m: AbstractMap<B>,
    },
}

/// Written out, so that what lets a value go stands once for each base, and not once more in each crate where one is let go.
impl<B: Base> Drop for AbstractValue<B> {
    fn drop(self) {
        self.let_go();
    }
}

impl<B: Base> AbstractValue<B> {
    /// Lets go what it holds.
    #[cycle(let_go)]
    fn let_go(self) {
        match self {
            AbstractValue::Flag(_flag) => {}
            AbstractValue::Word { w: _w, x: _x } => {}
            AbstractValue::Data { ty: _ty, cases } => match cases.present {
                Present::One(one) => let_fields_go(one),
                Present::Several(several) => {
                    let mut left = several;
                    while let Some(one) = left.pop() {
                        let_fields_go(one);
                    }
                    left.destroy_empty();
                }
            },
            AbstractValue::Map { map: _map, m: _m } => {}
        }
    }
}

/// Lets go the fields of a constructor, where no other value shares them.
#[cycle(let_go)]
fn let_fields_go<B: Base>(one: Constructor<AbstractValue<B>>) {
    if let Some(fields) = Rc::into_inner(one.fields) {
        let mut left = fields;
        while let Some(value) = left.pop() {
            value.let_go();
        }
        left.destroy_empty();
    }
}
