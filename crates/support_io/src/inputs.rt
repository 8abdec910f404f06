//! Named inputs, of which one at a time is open.

ghost use Rattle.std.specs.Prelude.{◌≡◌, ◌↔◌, ◌<◌, ◌≤◌, ◌++◌, List, [], ℕ, length, take, IsTrue, IsOk, IsErr, IsSome, IfOk, OnOk, OnErr};
ghost use Rattle.std.specs.Bool.{IsFalse};
ghost use Rattle.support_io.specs.Faults.{RoseByOne};
ghost use Rattle.support_io.specs.InputState.{InputState, InputsKept, Opened, StillOpen};

/// A call of an input or of a sink that failed.
#[derive(Clone, Copy, Debug, PartialEq, Eq)]
pub struct Failed;

/// Named inputs, of which one at a time is open. A name is text; contracts see it as its bytes.
///
/// Some inputs tell their bytes, as those in memory do. Of the others, as files, no contract can
/// say what they hold: there `held` and `left` of the state mean nothing.
pub trait Inputs {
    /// How these inputs stand: what they hold, what is open, which names are sure, and the faults.
    ghost state: { Self → InputState };

    /// Opens the named input at its first byte, and closes the one that was open. Where this
    /// fails, no input is open.
    fn open(&mut self, name: &str) -> Result<(), Failed>
        ensures kept { InputsKept (state self.old) (state self.new) }
        ensures opened { OnOk result (Opened (state self.old) name.now (state self.new)) }

        // When it fails, and what that leaves.
        ensures not_held { IsTrue (state self.old).tells → (state self.old).held name.now ≡ None
            → IsErr result }
        ensures sure_opens { IsTrue ((state self.old).sure name.now) → IsOk result }
        ensures fault { OnErr result (RoseByOne (state self.old).faults (state self.new).faults) }
        ensures closed { OnErr result (IsFalse (state self.new).is_open) };

    /// Reads into the front of `buf`, and answers how many bytes: 0 is the end of the input. What
    /// stands in `buf` past them is open. Where this fails, `buf` is as it was.
    fn read(&mut self, buf: &mut [u8]) -> Result<usize, Failed>
        requires open { IsTrue (state self.old).is_open }
        requires nonempty { 0 < length buf.old }

        ensures kept { InputsKept (state self.old) (state self.new) }
        ensures still_open { StillOpen (state self.old) (state self.new) }
        ensures within { IfOk result (λ count. count ≤ length buf.new) }
        ensures no_fault { OnOk result ((state self.new).faults ≡ (state self.old).faults) }
        ensures taken { IsTrue (state self.old).tells
            → IfOk result (λ count. (state self.old).left ≡ take count buf.new ++ (state self.new).left) }
        ensures end { IsTrue (state self.old).tells
            → IfOk result (λ count. (count ≡ 0) ↔ ((state self.old).left ≡ [])) }

        // When it fails, and what that leaves.
        ensures sure_reads { IsTrue (state self.old).is_open_sure → IsOk result }
        ensures fault { OnErr result (RoseByOne (state self.old).faults (state self.new).faults) }
        ensures none_taken { OnErr result ((state self.new).left ≡ (state self.old).left) }
        ensures unchanged { OnErr result (buf.new ≡ buf.old) };

    /// Inputs that tell hold each name that is sure.
    ghost sure_is_held: { (inputs : Self) (name : List ℕ) → IsTrue (state inputs).tells
        → IsTrue ((state inputs).sure name) → IsSome ((state inputs).held name) };
}
