//! Values of abstract words as plain data, and their laws over any base.
//!
//! A value is a flag, a word, a constructor value or a map (specs/Abs). A flag describes the truth values that it may be,
//! a constructor value the tuple of each constructor that is present, part by part, and nothing made by one that is
//! missing (specs/Describes). With sets as words, `{ None: present, Some: [{1, 2}] }` describes `None`, `Some(1)` and
//! `Some(2)`.
//!
//! *Calls* go part by part (specs/Calls). Join and widening are one recursion, `merge_of`, over what is done with two words
//! and with two maps: constructor by constructor, where one that is on one side alone comes as it is. So
//! `{ None: present }` and `{ Some: [{1}] }` merge to `{ None: present, Some: [{1}] }`. They are total: of two
//! values that are not of one type they give some value. What absorbs has to have each constructor that the other has.
//!
//! *Shapes* (specs/Shapes). A type is a finite tree, since no datatype contains itself, and a value of it has its shape. A
//! rank is counted along the shape: a missing constructor is one more than the greatest rank that its fields can have, so
//! that it falls where the constructor comes.
//!
//! *What every user may rest on* (specs/Laws). What absorbs describes all that the other does; absorption is reflexive and
//! transitive. Of two values of one shape, join and widening describe what either does and absorb both. Widening gives
//! the old value where it absorbs the new one, and else one of lesser rank, by each list of stamps that holds those of
//! both; a rank is at most the height of the shape. Results fit, have the shape, and list no stamp that was not lent.
//!
//! *Types* (specs/Types). A value has a type by its form alone: a word has its width, a constructor value has a place for
//! each constructor of its datatype, and a present one has fields of their types. `{ None: missing, Some: [{1, 2}] }` has
//! the type of `None | Some(INT8)` where the word has 8 bits. The shape of a type (specs/TypeShapes) is the tree of all that
//! its datatypes name: of accepted specifications a value has a type exactly where it has the type's shape.
//!
//! *Concrete values* (specs/OfValues). The abstract value of `Some(3)` is `{ None: missing, Some: [{3}] }`: each word is a
//! constant, the constructor is present alone, and a map has the concrete cells with notes of their stamps, as many as the
//! base may list. It describes the concrete value in each valuation, fits, has its types, and lists its stamps alone.
//!
//! *Ranks* (specs/Ranks). The rank of the words of a value, with each note counted as 0, is at most its rank by any list of
//! stamps.
#![tactic(auto)]

pub mod laws;
