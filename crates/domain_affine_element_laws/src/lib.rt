//! Elements of an affine analysis, as plain data, and their laws (Markus Müller-Olm and Helmut Seidl, "Analysis of
//! modular arithmetic", ACM Transactions on Programming Languages and Systems 29(5), 2007).
//!
//! *Elements.* Of a state, some cells are tracked, at most 64: words of 32 bits, and maps of at most 64 keys to such
//! words. Their numbers are the state's valuation. An element is a submodule of the vectors of k + 1 numbers modulo 2^32,
//! where k cells are tracked. It holds of a state where 1, with the valuation behind it, is a member. With two cells, the
//! rows (1, 5, 0) and (0, 0, 1) hold of each state in which the first cell is 5; the rows (1, 0, 1), (0, 1, 1) of each
//! in which the second is the first and 1 more.
//!
//! Join and widening have the rows of both sides, and so generate the least submodule that holds both. An element
//! absorbs another where it holds each of its members. Its rank falls with each new member, and is at most 32 (k + 1).
//! So submodules are elements of an analysis, in the sense of `fixpoint_theory`. Elements are the same where their members
//! are: which rows there are is free.
//!
//! *Into an instruction.* The word of a tracked cell is the least constant c such that in each member its number is c
//! times the first, or else the form of the cell. The rows (2, 10, 0) and (0, 0, 1) give the constant 5 for the first
//! cell, and the second cell for itself. The word stands, in the valuation of each state of which the element holds, for
//! the cell's number.
//!
//! *Out of an instruction.* The words of the tracked cells behind an instruction are forms over the valuation before it.
//! The element behind has the values of the forms over each row, so that the relations among them are kept; a cell
//! whose word is any gets any number, by a unit vector. From the rows (1, 5, 0), (0, 0, 1), the words 1 + s and any, of
//! which s is the second cell, give (1, 1, 0), (0, 1, 0) and (0, 0, 1).
//!
//! Nothing runs here. specs/Laws has the laws, each the contract of a function of `laws`, and proofs elsewhere cite the
//! lemmas of the same names in proofs/Elements, Membership, Opened, Closed and Tracked.
#![tactic(auto)]

pub mod laws;
