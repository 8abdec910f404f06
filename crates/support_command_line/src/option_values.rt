//! The values of the options, each with its form and its default.

ghost use Rattle.std.specs.Prelude.{◌≡◌};
ghost use Rattle.support_command_line.specs.OptionValues.{address_of, base_of, calls_of, cases_of, joins_of, limit_of, order_of, steps_of};
ghost use Rattle.support_command_line.specs.Views.{given_of};

use crate::bases::BaseName;
use crate::defaults::{DEFAULT_CALLS, DEFAULT_CASES, DEFAULT_JOINS, DEFAULT_LIMIT, DEFAULT_STEPS};
use crate::given_words::GivenWords;
use crate::numbers::{DecimalForm, address, decimal};
use crate::orders::Order;

/// The base address of the first part of the code.
pub fn base_address(given: &GivenWords) -> Option<u32>
    ensures { result ≡ address_of (given_of given.now) }
{
    match given.at {
        Some(text) => address(text),
        None => Some(0),
    }
}

/// The order of the bytes in a code word.
pub fn order(given: &GivenWords) -> Option<Order>
    ensures { result ≡ order_of (given_of given.now) }
{
    match given.order {
        Some(text) => Order::named(text),
        None => Some(Order::Big),
    }
}

/// How many steps a run has at most.
pub fn steps(given: &GivenWords) -> Option<u32>
    ensures { result ≡ steps_of (given_of given.now) }
{
    let form = DecimalForm {
        most_digits: 10,
        least: 0,
        greatest: u32::MAX,
    };
    match given.steps {
        Some(text) => decimal(text, form),
        None => Some(DEFAULT_STEPS),
    }
}

/// How many turns an activation has.
pub fn calls(given: &GivenWords) -> Option<u32>
    ensures { result ≡ calls_of (given_of given.now) }
{
    let form = DecimalForm {
        most_digits: 5,
        least: 1,
        greatest: 65_536,
    };
    match given.calls {
        Some(text) => decimal(text, form),
        None => Some(DEFAULT_CALLS),
    }
}

/// How many values a counter has at most.
pub fn limit(given: &GivenWords) -> Option<u32>
    ensures { result ≡ limit_of (given_of given.now) }
{
    let form = DecimalForm {
        most_digits: 4,
        least: 1,
        greatest: 4096,
    };
    match given.limit {
        Some(text) => decimal(text, form),
        None => Some(DEFAULT_LIMIT),
    }
}

/// How many changes of an element join before later ones widen: all before the one that the option names.
pub fn joins(given: &GivenWords) -> Option<u32>
    ensures { result ≡ joins_of (given_of given.now) }
{
    let form = DecimalForm {
        most_digits: 2,
        least: 1,
        greatest: 64,
    };
    match given.widen {
        Some(text) => Some(decimal(text, form)? - 1),
        None => Some(DEFAULT_JOINS),
    }
}

/// How often over an element is split before its instruction is evaluated.
pub fn cases(given: &GivenWords) -> Option<u32>
    ensures { result ≡ cases_of (given_of given.now) }
{
    let form = DecimalForm {
        most_digits: 1,
        least: 0,
        greatest: 8,
    };
    match given.cases {
        Some(text) => decimal(text, form),
        None => Some(DEFAULT_CASES),
    }
}

/// The base of abstract words.
pub fn base(given: &GivenWords) -> Option<BaseName>
    ensures { result ≡ base_of (given_of given.now) }
{
    match given.base {
        Some(text) => BaseName::named(text),
        None => Some(BaseName::KSetInterval),
    }
}
