//! What an instruction makes of an element.

use base_trait::Use;

/// The addresses that a step may lead to, ascending, or the word of the counter where they are too many.
#[derive(Drop)]
pub enum Targets<W> {
    List(Vec<u32>),
    Many { shown: W },
}

/// The targets, the element behind the instruction, or none where no state is left, and the uses, also where the
/// targets are too many.
#[derive(Drop)]
pub struct Transfer<E, W> {
    pub targets: Targets<W>,
    pub post: Option<E>,
    pub uses: Vec<Use>,
}

/// An element that arrives at an address.
#[derive(Drop)]
pub struct Arrival<E> {
    pub to: u32,
    pub elem: E,
}

/// A transfer, or the code word that has no decoding; or, of cases, what arrives at each address that the new counter
/// may be, by ascending addresses, and the uses of all cases.
#[derive(Drop)]
pub enum Transferred<E, W> {
    Undecodable {
        word: u32,
    },
    Made(Transfer<E, W>),
    Sent {
        arrivals: Vec<Arrival<E>>,
        uses: Vec<Use>,
    },
}
