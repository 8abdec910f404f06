//! The fixed point of an analysis over a code image: worklist states, closed tables, and what they say of every run.
//!
//! # The theory, with an example
//!
//! An analysis keeps one abstract element for each code address: it stands for a set of states. The entry gives an
//! element at the entry's counter. The *transfer* of an address takes what stands there and gives the addresses
//! that its instruction may lead to, and an element behind the instruction. That arrives at each of them. Where an
//! element stands already, the new one changes nothing if it is absorbed; else both are joined, and once an address
//! has had as many changes as the analysis has `joins`, widened. The first change is the first arrival; the program
//! has 3 joins unless asked, so the fourth change widens. An address that changed is pending, and the least pending
//! address is transferred next, until there is none (Kildall, POPL 1973; Cousot and Cousot, POPL 1977).
//!
//! Over intervals of the numbers 0 to 99 and with 3 joins, take four words at 4096: `x := 0`; `x := x + 1`; where x is below 50,
//! back to 4100; leave. What stands at 4100 goes from 0..0 to 0..1 and 0..2, and then, widened, to 0..99. The
//! transfers are made at 4096, 4100, 4104, 4100, 4104, 4100, 4104, 4100, 4104, 4108.
//!
//! | what | where | says |
//! |---|---|---|
//! | elements | specs/Elements | the algebra: which states an element describes, joins, widening, absorption, rank and height, stamps, and its laws |
//! | code | specs/Code | the addresses of code words, ascending, whatever the segments of the image; at most 262,144 |
//! | outcome | specs/Outcome | what a transfer gives: no decoding, too many targets with uses, or targets with an element and uses; of an element that was split, what its cases send to each address, with uses |
//! | analysis | specs/Analysis | elements, code, entry and transfer in one record, and the laws that all rests on |
//! | worklist state | specs/WorklistState | what stands at each address after the transfers of a trace; a trace is *legal* where each address is the least pending one at its turn and has targets, and *full* where nothing is pending at its end |
//! | table | specs/Table | what is listed of each address; a table is *closed* where it is a certificate: it absorbs the entry, lists the targets and uses of each transfer, and absorbs what each transfer gives at each target |
//! | runs | specs/Runs | a machine, the state after n steps, and what a table says of every run |
//! | verdict | specs/Verdicts | the first part of a table that fails, and what each verdict means |
//!
//! # What is proved
//!
//! Each law is the contract of a function of `laws`, for every `Analyser` that is ready:
//!
//! - there is one legal trace to an end, and of N code words, elements of height H and J joins it has at most
//!   N(H + J + 1) addresses;
//! - the table of a complete legal trace is closed; its blocks, next addresses and stamps are of the image's addresses
//!   alone; there is one, up to how elements are written;
//! - a closed table is sound: from every state of the entry, after any number of steps, under every bound on turns,
//!   the element at the counter describes the state, no word without decoding is met, each step goes to an address
//!   that its block lists, and the block's uses cover each read of the step;
//! - the verdict of a table is `Accepted` exactly where it is closed, and each other verdict exactly where what it
//!   means holds;
//! - pairs of elements keep the laws of their parts.
//!
//! The bound is shown by one number, how many transfers may still come: an address that was not reached counts H +
//! J + 1, one that was 1 if it is pending, and besides H and the joins that are left, or, once it is widened, its rank.
//! An arrival never raises it, and a transfer lowers it.
//!
//! # Why worklist states and tables are functions from addresses
//!
//! Each lemma is then one about a single address, and the code's maps are read by key. An address that was not
//! reached has no changes and is not pending, by its form.
//!
//! # What an instance gives
//!
//! `Analyser` is what the worklist and the checker call. The elements of the code are seen as plain data of a type
//! that the instance chooses (`Plain`, a type for proofs alone), by `view`: an element may hold vectors, and its
//! plain form may be a list of trees, a pair, or a function. So no element needs a model. The plain form need not
//! be unique: `same` tells which are one element, and a call answers one that is the same as the value of its
//! definition. The rows of a submodule are so: any rows that generate it will do.
//!
//! Not every value of the type has to keep the laws. What has to hold of one before it is used is `IsReady`, which
//! the instance chooses; the laws ask for it, and so does each call but `is_code`, `start` and `joins`. An analyser of
//! instructions puts there that its specification is accepted and the problem well posed; one whose values all keep
//! the laws puts `⊤` there.
//!
//! A domain becomes an `Analyser` by a struct that holds it with the specification, the decoder, the image, the entry
//! and the limit; that is `ImageAnalysis`, in the crate `analysis_transfer`. Its elements and their laws are the domain's; `start`, `entry` and `code`
//! are those of entry and image. `transfer` fetches the word, decodes it, opens the element as a state, evaluates
//! the instruction, takes the members of the new counter as targets, and closes. What it has to show of `transfer`:
//!
//! | law | from |
//! |---|---|
//! | `transfer_fits` | what `close` gives fits |
//! | `transfer_lists`, `transfer_uses` | evaluation and `close` list no stamps but those of their arguments and the instruction's |
//! | `transfer_targets` | members ascend; without a value there are no targets |
//! | `transfer_unstamped` | reads of a base without stamps add nothing to the log |
//! | `transfer_same` | elements that are the same open to the same value, and close to elements that are the same |
//! | `IsSound.transfer` | `open` describes the state, evaluation keeps that, members hold the counter, `close` holds of the next state, and the log covers the reads |
//!
//! So a domain (`Domain`, in the crate `domain_trait`) has for its ghost members the same `Plain` and `view`,
//! its elements as a record of specs/Elements, and besides the values of `entry`, `open` and `close` as functions,
//! with their laws. docs/DESIGN.md, "What a domain is", says how each kind of element meets them.
#![tactic(auto)]

mod analyser;
mod described;
pub mod laws;
mod table;
mod targets;
mod transfer;
mod verdict;

pub use analyser::Analyser;
pub use described::Described;
pub use table::{Block, Table};
pub use targets::{addresses_of, exits_of, next_of};
pub use transfer::{Arrival, Targets, Transfer, Transferred};
pub use verdict::Verdict;
