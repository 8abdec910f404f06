//! What the transfers of cases come to so far.

use base_trait::Use;
use fixpoint_theory::Arrival;

/// What the transfers of some cases of an element come to.
#[derive(Drop)]
pub(crate) enum CaseTransfer<E, W> {
    /// The code word has no decoding.
    Undecodable {
        word: u32,
    },
    /// The counter behind a case may be too many addresses: the word that it is, and the uses of that case.
    TooMany {
        shown: W,
        uses: Vec<Use>,
    },
    /// What arrives at each address that the counter behind a case may be, by ascending addresses, and the uses of all
    /// cases, one after the other.
    Sent {
        arrivals: Vec<Arrival<E>>,
        uses: Vec<Use>,
    },
}
