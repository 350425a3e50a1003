//! Numbers that are printed at once: `write!` takes several times as long.

ghost use Rattle.std.specs.Prelude.{false, ◌≡◌, ◌-◌, ◌^◌, ◌<◌, ◌≤◌, [], drop, OnOk};
ghost use Rattle.std.specs.Fmt.{decimal, digit_glyph, digits, format_spec, padded_integral, signed_decimal};
ghost use Rattle.std.specs.Io.KnownBytes.{Appends};
ghost use Rattle.mach_cli.specs.Fields.{hex, value_in_width};
ghost use Rattle.mach_cli.specs.Listings.{hex_text};

use crate::spaces::print_spaces;
use std::io;
use std::io::Write;

// The most digits of a number of 64 bits, in any base.
const MOST: usize = 64;

// Returns the digit of a number.
pub(crate) fn digit(number: u8) -> u8
    requires { number < 16 }
    ensures { result ≡ digit_glyph false number }
{
    if number < 10 {
        b'0' + number
    } else {
        b'a' + (number - 10)
    }
}

// Writes the digits of a number at the end of a text, and returns the index of the first one.
#[inline(always)]
fn digits_in(base: u64, number: u64, text: &mut [u8; MOST]) -> usize
    requires { (0 < base) × (base ≤ 16) }
    ensures within { result ≤ 64 }
    ensures digits { drop result text.new ≡ digits base false number }
{
    let mut left = number;
    let mut at = MOST;
    'digits: while at > 0 {
        at -= 1;
        text[at] = digit((left % base) as u8);
        left /= base;
        if left == 0 {
            return at;
        }
    }
    at
}

/// Prints a number in decimal.
pub fn print_decimal<O: Write>(number: u64, out: &mut O) -> io::Result<()>
    ensures { OnOk result (Appends (O.contents out.old) (O.contents out.new) (decimal number)) }
{
    let mut text = [b'0'; MOST];
    let start = digits_in(10, number, &mut text);
    out.write_all(&text[start..])
}

/// Prints a number that may be negative, in decimal.
pub fn print_signed<O: Write>(number: i128, out: &mut O) -> io::Result<()>
    ensures { OnOk result (Appends (O.contents out.old) (O.contents out.new) (signed_decimal number)) }
{
    match u64::try_from(number) {
        Ok(magnitude) => print_decimal(magnitude, out),
        Err(_) => write!(out, "{number}"),
    }
}

/// Prints a number in hexadecimal, after `0x`.
pub fn print_hexadecimal<O: Write>(number: u64, out: &mut O) -> io::Result<()>
    ensures { OnOk result (Appends (O.contents out.old) (O.contents out.new) (hex_text number)) }
{
    let mut text = [b'0'; MOST];
    let start = digits_in(16, number, &mut text);
    out.write_all(b"0x")?;
    out.write_all(&text[start..])
}

// Prints digits, and spaces after them up to so many characters.
fn print_padded<O: Write>(digits: &[u8], width: usize, out: &mut O) -> io::Result<()>
    ensures { OnOk result (Appends (O.contents out.old) (O.contents out.new)
        (padded_integral (format_spec 32 1 0 width (2 ^ 64 - 1)) false [] digits.now)) }
{
    out.write_all(digits)?;
    print_spaces(width.saturating_sub(digits.len()), out)
}

/// Prints a number in hexadecimal, after `0x`, and spaces after it up to so many characters.
pub fn print_wide_hexadecimal<O: Write>(number: u64, width: usize, out: &mut O) -> io::Result<()>
    ensures { OnOk result (Appends (O.contents out.old) (O.contents out.new) (value_in_width width (hex number))) }
{
    let mut text = [b'0'; MOST];
    let start = digits_in(16, number, &mut text);
    out.write_all(b"0x")?;
    print_padded(&text[start..], width.saturating_sub(2), out)
}
