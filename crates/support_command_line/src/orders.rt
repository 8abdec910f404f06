//! The order of the bytes in a code word.

ghost use Rattle.std.specs.Prelude.{◌≡◌};
ghost use Rattle.support_command_line.specs.Orders.{order_named};

/// Which byte of a code word stands first.
#[derive(Clone, Copy)]
pub enum Order {
    /// The most significant.
    Big,
    /// The least significant.
    Little,
}

impl Order {
    /// The order of a name.
    pub fn named(name: &str) -> Option<Order>
        ensures { result ≡ order_named name.now }
    {
        match name {
            "big" => Some(Order::Big),
            "little" => Some(Order::Little),
            _ => None,
        }
    }
}
