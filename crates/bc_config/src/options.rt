ghost use Rattle.std.specs.Prelude.{◌≡◌, IfSome};
ghost use Rattle.bc_history.specs.Scenario.OptionTable.{takes, is_named, option_named, read_as, value_of};
ghost use Rattle.bc_config.specs.OptionRanges.{IsInRange, HasRoom};

use crate::setting::row;
use crate::table::OptionRow;
use bc_history::{Form, Scope};
use text_io::{hex_number, identity, number, seconds, signed};

/// Whether a section takes the options of a scope: its own, and the global one also those of a
/// port.
fn takes(section: Scope, scope: Scope) -> bool
    ensures { result ≡ takes section scope }
{
    match (section, scope) {
        (Scope::Global, Scope::Global | Scope::Port) => true,
        (Scope::Clock, Scope::Clock) => true,
        (Scope::Port, Scope::Port) => true,
        _ => false,
    }
}

/// Whether a word names an option in a section.
fn is_named(section: Scope, word: &[u8], row: &OptionRow) -> bool
    ensures { result ≡ is_named section word.now row.now }
{
    takes(section, row.scope) && word == row.name
}

/// The number of the option that a word names in a section: none where the section has no such
/// option.
pub fn option_named(section: Scope, word: &[u8]) -> Option<usize>
    ensures { result ≡ option_named section word.now }
{
    let mut number = 0;
    while let Some(row) = row(number) {
        if is_named(section, word, &row) {
            return Some(number);
        }
        number += 1;
    }
    None
}

/// A word as a value of a form, whatever its range.
fn read_as(form: Form, word: &[u8]) -> Option<i128>
    requires { HasRoom form }
    ensures { result ≡ read_as form word.now }
{
    match form {
        Form::Decimal => number(word).map(|n| n as i128),
        Form::Hex(most) => match number(word) {
            Some(n) => Some(n as i128),
            None => hex_number(word, most).map(|n| n as i128),
        },
        Form::Seconds => seconds(word).map(|n| n as i128),
        Form::Signed => signed(word),
        Form::Identity => identity(word).map(|n| n as i128),
    }
}

/// The value that a word stands for, in ns, ppb or as the option counts: none where it is not of
/// the option's form, or out of its range.
pub fn option_value(number: usize, word: &[u8]) -> Option<i128>
    ensures value { result ≡ value_of number word.now }
    ensures range { IfSome result (λ value. IsInRange number value) }
{
    let row = row(number)?;
    match read_as(row.form, word) {
        Some(value) if row.has(value) => Some(value),
        _ => None,
    }
}
