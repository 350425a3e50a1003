//! Bits that have names.

ghost use Rattle.std.specs.Prelude.{◌≡◌, ◌==◌, bit_and, map, true, IfOk, OnOk};
ghost use Rattle.std.specs.Io.KnownBytes.{Appends};
ghost use Rattle.mach_records.specs.FlagNames.{flag_named};
ghost use Rattle.mach_records.specs.FlagNames as named;
ghost use Rattle.mach_cli.specs.Flags.{before_text, worded_flags_text, flag_words_text, other_flags_text, WritesWord};
ghost use Rattle.mach_cli.specs.Flags as defined;

use mach_records::{FlagName, code_flags, executable_flags};
use std::io;
use std::io::Write;

/// Prints the flags of a code directory.
pub fn print_code_flags<O: Write>(flags: u32, out: &mut O) -> io::Result<()>
    ensures { OnOk result (Appends (O.contents out.old) (O.contents out.new) (worded_flags_text named.code_flags flags)) }
{
    print_flags(u64::from(flags), &code_flags(), out)
}

/// Prints the flags of an executable segment.
pub fn print_segment_flags<O: Write>(flags: u64, out: &mut O) -> io::Result<()>
    ensures { OnOk result (Appends (O.contents out.old) (O.contents out.new) (worded_flags_text named.executable_flags flags)) }
{
    print_flags(flags, &executable_flags(), out)
}

// Prints a number, and in parentheses the names of its bits, in order, and the bits without a name as one number.
fn print_flags<O: Write>(flags: u64, words: &[FlagName], out: &mut O) -> io::Result<()>
    ensures { OnOk result (Appends (O.contents out.old) (O.contents out.new) (worded_flags_text (map flag_named words.now) flags)) }
{
    write!(out, "0x{flags:x}")?;
    print_words(flags, words, out)?;
    print_end(flags, out)
}

// Closes the parenthesis, if there is one.
fn print_end<O: Write>(flags: u64, out: &mut O) -> io::Result<()>
    ensures { OnOk result (Appends (O.contents out.old) (O.contents out.new) (defined.end_text flags)) }
{
    if flags == 0 {
        return Ok(());
    }
    write!(out, ")")
}

// What is left of a number whose names are printed one after the other, and whether the next name is the first.
#[derive(Clone, Copy, Drop)]
struct FlagsLeft {
    is_first: bool,
    rest: u64,
}

// Prints the separator before a name.
fn print_before<O: Write>(is_first: bool, out: &mut O) -> io::Result<()>
    ensures { OnOk result (Appends (O.contents out.old) (O.contents out.new) (before_text is_first)) }
{
    if is_first {
        write!(out, " (")
    } else {
        write!(out, ",")
    }
}

// Whether a number doesn't have a bit.
fn is_clear(number: u64, bit: u64) -> bool
    ensures { result ≡ (bit_and number bit == 0) }
{
    number & bit == 0
}

// Prints the name of a bit, if it is set, and returns what is left.
fn print_word<O: Write>(left: FlagsLeft, flag: &FlagName, out: &mut O) -> io::Result<FlagsLeft>
    ensures { IfOk result (λ next. WritesWord (flag_named flag.now) left.is_first left.rest next.is_first next.rest
        (O.contents out.old) (O.contents out.new)) }
{
    if is_clear(left.rest, flag.bit) {
        return Ok(left);
    }
    let word = flag.name;
    print_before(left.is_first, out)?;
    write!(out, "{word}")?;
    Ok(FlagsLeft {
        is_first: false,
        rest: left.rest ^ flag.bit,
    })
}

// Prints the names of the bits that are set, and the bits without a name, after a parenthesis.
fn print_words<O: Write>(flags: u64, words: &[FlagName], out: &mut O) -> io::Result<()>
    ensures { OnOk result (Appends (O.contents out.old) (O.contents out.new) (flag_words_text true (map flag_named words.now) flags)) }
{
    let mut left = FlagsLeft {
        is_first: true,
        rest: flags,
    };
    'words: for flag in words {
        left = print_word(left, flag, out)?;
    }
    print_others(left.is_first, left.rest, out)
}

// Prints the bits without a name, if any are left.
fn print_others<O: Write>(is_first: bool, rest: u64, out: &mut O) -> io::Result<()>
    ensures { OnOk result (Appends (O.contents out.old) (O.contents out.new) (other_flags_text is_first rest)) }
{
    if rest == 0 {
        return Ok(());
    }
    print_before(is_first, out)?;
    write!(out, "0x{rest:x}")
}
