//! Numbers as the command line writes them.

ghost use Rattle.std.specs.Prelude.{◌≡◌, ◌≤◌};
ghost use Rattle.support_command_line.specs.Numbers.{address_in, decimal_in, number_in};

/// How many hex digits an address has at most.
const ADDRESS_DIGITS: usize = 8;

/// How a decimal number is written: with at most so many digits, and between these bounds.
#[derive(Clone, Copy)]
pub struct DecimalForm {
    pub most_digits: usize,
    pub least: u32,
    pub greatest: u32,
}

/// The address that a text writes: 1 to 8 hex digits of either case.
pub fn address(text: &str) -> Option<u32>
    ensures { result ≡ address_in text.now }
{
    number(text, ADDRESS_DIGITS, 16)
}

/// The decimal number that a text writes in this form.
pub fn decimal(text: &str, form: DecimalForm) -> Option<u32>
    ensures { result ≡ decimal_in form.most_digits form.least form.greatest text.now }
{
    let number = number(text, form.most_digits, 10)?;
    if form.least <= number && number <= form.greatest {
        Some(number)
    } else {
        None
    }
}

/// The number that at most so many digits of a radix write. `from_str_radix` takes a plus before them too.
fn number(text: &str, most_digits: usize, radix: u32) -> Option<u32>
    requires least { 2 ≤ radix }
    requires greatest { radix ≤ 36 }
    ensures { result ≡ number_in radix most_digits text.now }
{
    if text.len() > most_digits || text.starts_with('+') {
        return None;
    }
    u32::from_str_radix(text, radix).ok()
}
