//! Values and domains of pairs as plain data: two side by side, and the parts of a pair.
//!
//! *Zip* puts a value over one base and a value over another side by side, and gives a value over the pair of both
//! (specs/Calls). It describes what both describe. A word is the pair of both words. A flag may be what both allow, and a
//! constructor is there where both have it. A map lists the keys of either, and a missing cell is that side's rest: with sets
//! on the left and intervals on the right, `{ 4: {7}, rest {0} }` and `{ 5: 1..2, rest 0..9 }` give
//! `{ 4: ({7}, 0..9), 5: ({0}, 1..2), rest ({0}, 0..9) }`. Past the number of cells that a map may list, the cell of the
//! greatest key goes into the rest. Zip is total: a flag and a word, say, give the value that describes nothing.
//!
//! *Project* takes the first or the second part of each word and of each note. What a value over pairs describes both parts
//! describe. A map keeps its keys, so of the map above the first part is `{ 4: {7}, 5: {0}, rest {0} }`.
//!
//! *Laws* (specs/Laws). Of two values of one shape that fit, zip describes what both describe, and fits; of any two it lists
//! stamps of both alone. Parts describe what the pair does, fit where it fits, and list its stamps alone. Values of states
//! zip to one of states, and the parts of one are such.
//!
//! *Domains* (specs/Domain). Two domains side by side have pairs as elements. An element opens to both state values zipped,
//! and a state value closes by its parts. The valuation of a state is that of the part that looks at it. The pair keeps all laws
//! of a domain where at most one part looks at the valuation, or both have the same one.
#![tactic(auto)]

pub mod laws;
