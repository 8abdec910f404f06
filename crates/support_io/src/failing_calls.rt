//! Which calls of an input or a sink are to fail.

ghost use Rattle.std.specs.Prelude.{◌≡◌, ◌↔◌, IsTrue};
ghost use Rattle.support_io.specs.FailingCalls.{FailsNext, GoesOn};

/// The numbers, from 0, of the calls that are to fail, and the number of the next call.
#[derive(Drop)]
pub struct FailingCalls {
    pub fail: Vec<u32>,
    pub next: u64,
}

impl FailingCalls {
    /// These calls, before the first one.
    pub fn new(fail: Vec<u32>) -> Self
        ensures { result ≡ record { fail = fail; next = 0 } }
    {
        FailingCalls { fail, next: 0 }
    }

    /// Counts a call, and answers whether it is to fail.
    pub fn next_fails(&mut self) -> bool
        ensures fails { IsTrue result ↔ FailsNext self.old }
        ensures goes_on { GoesOn self.old self.new }
    {
        let number = self.next;
        self.next = number.saturating_add(1);
        self.fail.iter().any(|fails| u64::from(*fails) == number)
    }
}
