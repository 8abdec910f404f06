//! Texts with a separator between.

ghost use Rattle.std.specs.Prelude.{◌≡◌, ◌∷◌, ◌<◌, ◌≤◌, ◌==◌, not, length, IfSome};
ghost use Rattle.std.specs.List.{prefix_len};
ghost use Rattle.std.specs.Option.{option_copied};
ghost use Rattle.text_words.specs.Pieces.{pieces, pieces_left};

/// How many bytes stand in front of the first separator.
fn piece_len(separator: u8, text: &[u8]) -> usize
    ensures count { result ≡ prefix_len (λ b. not (b == separator)) text.now }
    ensures bound { result ≤ length text.now }
{
    text.iter().take_while(|byte| **byte != separator).count()
}

/// The first of the texts between separators, and what stands behind its separator, where there is one.
#[tactic(auto, using(crate::proofs::FirstPiece::first_is, crate::proofs::FirstPiece::only_is))]
pub(crate) fn first_piece(separator: u8, text: &[u8]) -> (&[u8], Option<&[u8]>)
    ensures pieces { pieces separator text.now ≡ result.0.now ∷ pieces_left separator (option_copied result.1) }
    ensures shorter { IfSome result.1 (λ rest. length rest.now < length text.now) }
{
    let len = piece_len(separator, text);
    if len < text.len() {
        (&text[..len], Some(&text[len + 1..]))
    } else {
        (text, None)
    }
}
