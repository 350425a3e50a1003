//! The numbers of entitlements.

ghost use Rattle.std.specs.Prelude.{◌≡◌};
ghost use Rattle.mach_base.specs.Answer.{Reads};
ghost use Rattle.mach_base.specs.Fault.{fault_of, malformed};
ghost use Rattle.mach_signature.specs.EntitlementNumbers as defined;
ghost use Rattle.mach_signature.specs.EntitlementViews.{plain_view};
ghost use Rattle.mach_signature.specs.declared.entitlements.digits.Digits.TheVariants.{Decimal, Hexadecimal};

use crate::entitlements::parts::{NumberKind, Plain};
use mach_base::{Error, Result};

/// How the digits of a number are written.
#[derive(Clone, Copy)]
pub enum Digits {
    /// In the decimal system, as letters.
    Decimal,
    /// In the hexadecimal system, as letters.
    Hexadecimal,
    /// As bytes.
    Bytes,
    /// As bytes, each with its bits turned.
    Turned,
}

// Returns the error of a number that can't be read.
fn refused() -> Error
    ensures { fault_of result ≡ malformed }
{
    Error::Malformed("a number of the entitlements can't be read")
}

// Returns the base of a number.
fn base_of(digits: Digits) -> u64
    ensures { result ≡ defined.digit_base digits }
{
    match digits {
        Digits::Decimal => 10,
        Digits::Hexadecimal => 16,
        Digits::Bytes | Digits::Turned => 256,
    }
}

// Returns the digit of the decimal system that a letter is.
fn decimal_digit(byte: u8) -> Option<u8>
    ensures { result ≡ defined.entitlement_digit Decimal byte }
{
    if byte >= b'0' && byte <= b'9' {
        return Some(byte - b'0');
    }
    None
}

// Returns the digit of the hexadecimal system that a letter is.
fn hexadecimal_digit(byte: u8) -> Option<u8>
    ensures { result ≡ defined.entitlement_digit Hexadecimal byte }
{
    if byte >= b'0' && byte <= b'9' {
        return Some(byte - b'0');
    }
    if byte >= b'A' && byte <= b'F' {
        return Some(byte - 55);
    }
    if byte >= b'a' && byte <= b'f' {
        return Some(byte - 87);
    }
    None
}

// Returns the digit that a byte is, if it is one.
fn digit_of(digits: Digits, byte: u8) -> Option<u8>
    ensures { result ≡ defined.entitlement_digit digits byte }
{
    match digits {
        Digits::Decimal => decimal_digit(byte),
        Digits::Hexadecimal => hexadecimal_digit(byte),
        Digits::Bytes => Some(byte),
        Digits::Turned => Some(255 - byte),
    }
}

// Returns the number with one digit more, if it stays below 2^64.
fn with_digit(digits: Digits, number: u64, digit: Option<u8>) -> Option<u64>
    ensures { result ≡ defined.with_digit digits number digit }
{
    let digit = digit?;
    number
        .checked_mul(base_of(digits))?
        .checked_add(u64::from(digit))
}

// Returns the number of digits.
fn digits_after(digits: Digits, bytes: &[u8]) -> Result<u64>
    ensures { Reads (λ n. n) result (defined.digits_after digits 0 bytes.now) }
{
    let mut number = 0u64;
    let mut left = bytes;
    'digits: while let [byte, rest @ ..] = left {
        let Some(next) = with_digit(digits, number, digit_of(digits, *byte)) else {
            return Err(refused());
        };
        number = next;
        left = rest;
    }
    Ok(number)
}

/// Returns the number of one or more digits.
pub fn number_in(digits: Digits, bytes: &[u8]) -> Result<u64>
    ensures { Reads (λ n. n) result (defined.number_in digits bytes.now) }
{
    if bytes.is_empty() {
        return Err(refused());
    }
    digits_after(digits, bytes)
}

/// Returns the integer -1 - n, if it is -2^63 or more.
pub fn below_zero<'a>(number: u64) -> Result<Plain<'a>>
    ensures { Reads plain_view result (defined.below_zero number) }
{
    if number < 1 << 63 {
        Ok(Plain::Number(NumberKind::BelowZero, number))
    } else {
        Err(refused())
    }
}

/// Returns the integer -n, if it is -2^63 or more.
pub fn minus<'a>(number: u64) -> Result<Plain<'a>>
    ensures { Reads plain_view result (defined.minus number) }
{
    match number.checked_sub(1) {
        Some(less) => below_zero(less),
        None => Ok(Plain::Number(NumberKind::Natural, 0)),
    }
}

// Returns the number with the next byte in a form.
fn next_by_form(form: u8, number: u64, byte: u8) -> Option<u64>
    ensures { result ≡ defined.next_by_form form number byte }
{
    if form == b'0' {
        with_digit(Digits::Decimal, number, digit_of(Digits::Decimal, byte))
    } else if byte == form {
        Some(number)
    } else {
        None
    }
}

/// Returns the number of the decimal digits that are at each `0` of a form, if all else is as in the form.
pub fn number_by_form(form: &str, bytes: &[u8]) -> Result<u64>
    ensures { Reads (λ n. n) result (defined.number_by_form form.now 0 bytes.now) }
{
    let mut number = 0u64;
    let mut forms = form.as_bytes();
    let mut left = bytes;
    'digits: while let [first, others @ ..] = forms {
        let [byte, rest @ ..] = left else {
            return Err(refused());
        };
        let Some(next) = next_by_form(*first, number, *byte) else {
            return Err(refused());
        };
        number = next;
        forms = others;
        left = rest;
    }
    if left.is_empty() {
        Ok(number)
    } else {
        Err(refused())
    }
}
