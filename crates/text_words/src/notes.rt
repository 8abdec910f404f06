//! Notes.

ghost use Rattle.std.specs.Prelude.{◌≡◌, ◌++◌, OnOk, map};
ghost use Rattle.std.specs.String.{string_bytes};
ghost use Rattle.text_words.specs.Lists.{behind_commas};
ghost use Rattle.text_words.specs.Notes.{stamp_text, stamps_text};

use crate::words::push_number;
use base_trait::Stamp;
use std::alloc::AllocError as NoMemory;

/// Appends a stamp: `entry`, or an address in 8 hex digits.
fn push_stamp(out: &mut String, stamp: Stamp) -> Result<(), NoMemory>
    ensures { OnOk result (string_bytes out.new ≡ string_bytes out.old ++ stamp_text stamp) }
{
    match stamp {
        Stamp::Entry => out.push_str("entry"),
        Stamp::At(at) => push_number(out, 32, u64::from(at)),
    }
}

/// Appends stamps, each behind a comma.
fn push_others(out: &mut String, stamps: &[Stamp]) -> Result<(), NoMemory>
    ensures { OnOk result (string_bytes out.new ≡ string_bytes out.old ++ behind_commas (map stamp_text stamps.now)) }
{
    for stamp in stamps {
        out.push_str(",")?;
        push_stamp(out, *stamp)?;
    }
    Ok(())
}

/// Appends stamps behind ` from `, with a comma between; nothing, where there are none.
pub fn push_stamps(out: &mut String, stamps: &[Stamp]) -> Result<(), NoMemory>
    ensures { OnOk result (string_bytes out.new ≡ string_bytes out.old ++ stamps_text stamps.now) }
{
    match stamps {
        [] => Ok(()),
        [first, others @ ..] => {
            out.push_str(" from ")?;
            push_stamp(out, *first)?;
            push_others(out, others)
        }
    }
}
