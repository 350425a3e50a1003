//! The addresses that lines give.

ghost use Rattle.std.specs.Prelude.{◌≡◌, ◌++◌, true, IfErr, OnOk};
ghost use Rattle.std.specs.List.{filter_map, list_all};
ghost use Rattle.mach_base.specs.Text.{texts};
ghost use Rattle.mach_cli.specs.AddressesRead.{bytes_address, is_address_line, line_address, IsAddressMisuse};
ghost use Rattle.mach_cli.specs.Calls.{IfMisuse};

use crate::call::Untaken;
use crate::hexadecimal::address_in;
use crate::misuse::Misuse;
use crate::word::NoText;
use std::alloc::Allocator;
use std::str;

// Returns the address that bytes give.
fn bytes_address(bytes: &[u8]) -> Option<u64>
    ensures { result ≡ bytes_address bytes.now }
{
    match str::from_utf8(bytes) {
        Ok(word) => address_in(word),
        Err(_) => None,
    }
}

/// Adds the addresses that lines give, in order, to others. A blank line gives none.
pub fn add_addresses<'a, A: Allocator>(
    lines: &[&'a [u8]],
    addresses: &mut Vec<u64, A>,
) -> Result<(), Untaken<'a>>
    ensures added { OnOk result (addresses.new.items ≡ addresses.old.items ++ filter_map line_address (texts lines.now)) }
    ensures all { OnOk result (list_all is_address_line (texts lines.now) ≡ true) }
    ensures misuse { IfErr result (IfMisuse (IsAddressMisuse (texts lines.now))) }
{
    'lines: for (index, line) in lines.iter().enumerate() {
        let word = line.trim_ascii();
        if word.is_empty() {
            continue;
        }
        let Some(address) = bytes_address(word) else {
            let (what, number) = ("line", index + 1);
            let bytes = *line;
            return Err(Untaken::Misuse(Misuse::NoAddressLine(NoText {
                what,
                number,
                bytes,
            })));
        };
        let Ok(()) = addresses.push(address) else {
            return Err(Untaken::Memory);
        };
    }
    Ok(())
}
