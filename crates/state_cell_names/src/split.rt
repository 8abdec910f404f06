//! Texts in two.

ghost use Rattle.std.specs.Prelude.{◌≡◌, ◌==◌, ◌≤◌, length, option_map};
ghost use Rattle.std.specs.List.{position_or_len};
ghost use Rattle.state_cell_names.specs.Views.{both};
ghost use Rattle.state_cell_names.specs.Names as defined;

/// How many bytes stand before the first one that is this.
fn len_before(bytes: &[u8], at: u8) -> usize
    ensures count { result ≡ position_or_len (λ b. b == at) bytes.now }
    ensures bound { result ≤ length bytes.now }
{
    bytes.iter().take_while(|byte| **byte != at).count()
}

/// What stands before the first of these bytes, and what behind it; none, where there is none.
pub fn split_once(bytes: &[u8], at: u8) -> Option<(&[u8], &[u8])>
    ensures { option_map both result ≡ defined.split_once at bytes.now }
{
    let len = len_before(bytes, at);
    if len < bytes.len() {
        Some((&bytes[..len], &bytes[len + 1..]))
    } else {
        None
    }
}
