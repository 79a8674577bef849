//! Appends texts and numbers to bytes.

ghost use Rattle.std.specs.Prelude.{◌≡◌, ◌++◌, OnOk, decimal};
ghost use Rattle.std.specs.Fmt.{signed_decimal};

use itoa::Buffer;
use std::alloc::AllocError;

/// Appends the bytes of a text to a vector of bytes.
pub fn put(out: &mut Vec<u8>, text: &str) -> Result<(), AllocError>
    ensures { OnOk result (out.new.items ≡ out.old.items ++ text.now) }
{
    out.extend_from_slice(text.as_bytes())
}

/// Appends two texts to a vector of bytes.
pub fn put_both(out: &mut Vec<u8>, front: &str, back: &str) -> Result<(), AllocError>
    ensures { OnOk result (out.new.items ≡ out.old.items ++ (front.now ++ back.now)) }
{
    put(out, front)?;
    put(out, back)
}

/// Appends a number in decimal digits to a vector of bytes.
pub fn put_decimal(out: &mut Vec<u8>, number: usize) -> Result<(), AllocError>
    ensures { OnOk result (out.new.items ≡ out.old.items ++ decimal number) }
{
    let mut digits = Buffer::new();
    put(out, digits.format(number))
}

/// Appends a text, and a number after it, to a vector of bytes.
pub fn put_numbered(out: &mut Vec<u8>, front: &str, number: usize) -> Result<(), AllocError>
    ensures { OnOk result (out.new.items ≡ out.old.items ++ (front.now ++ decimal number)) }
{
    put(out, front)?;
    put_decimal(out, number)
}

/// Appends an integer in decimal, with `-` if it is negative, to a vector of bytes.
pub fn put_signed(out: &mut Vec<u8>, number: i64) -> Result<(), AllocError>
    ensures { OnOk result (out.new.items ≡ out.old.items ++ signed_decimal number) }
{
    let mut digits = Buffer::new();
    put(out, digits.format(number))
}
