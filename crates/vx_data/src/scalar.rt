//! One value of a column.
ghost use Rattle.std.specs.Prelude.{◌≡◌, ◌++◌, OnOk, IfOk, string_bytes};
ghost use Rattle.std.specs.Fmt.{signed_decimal};
ghost use Rattle.vx_data.specs.Scalar.{scalar_view, scalar_text};

use crate::quoted::push_quoted;
use itoa::Buffer;
use std::alloc::{AllocError, Global};

/// One value of a column.
#[derive(Debug, Drop)]
pub enum Scalar {
    Bool(bool),
    Int(i128),
    Text(String),
}

/// Adds a number.
fn push_number(text: &mut String, number: i128) -> Result<(), AllocError>
    ensures { OnOk result (string_bytes text.new ≡ string_bytes text.old ++ signed_decimal number) }
{
    let mut buffer = Buffer::new();
    text.push_str(buffer.format(number))
}

/// Adds the text of a value.
fn push_scalar(text: &mut String, scalar: &Scalar) -> Result<(), AllocError>
    ensures { OnOk result (string_bytes text.new ≡ string_bytes text.old ++ scalar_text (scalar_view scalar.now)) }
{
    match scalar {
        Scalar::Bool(true) => text.push_str("true"),
        Scalar::Bool(false) => text.push_str("false"),
        Scalar::Int(number) => push_number(text, *number),
        Scalar::Text(value) => push_quoted(text, value.as_str()),
    }
}

impl Scalar {
    /// The text of the value: `true`, `false`, a decimal number or quoted text.
    pub fn to_text(&self, alloc: Global) -> Result<String, AllocError>
        ensures { IfOk result (λ text. string_bytes text ≡ scalar_text (scalar_view self.now)) }
    {
        let mut text = String::new(alloc);
        push_scalar(&mut text, self)?;
        Ok(text)
    }
}
