//! Items of lists.

ghost use Rattle.std.specs.Prelude.{◌≡◌, slice_get};
ghost use Rattle.std.specs.Option.{option_copied};

/// The item at a place, if there is one.
pub(crate) fn item_at<T>(items: &[T], place: u32) -> Option<&T>
    ensures { option_copied result ≡ slice_get items.now place }
{
    match items.get(place as usize) {
        Some(item) => Some(item),
        None => None,
    }
}
