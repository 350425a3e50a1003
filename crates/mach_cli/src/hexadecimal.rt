//! Numbers in arguments: `0x` and hexadecimal digits.

ghost use Rattle.std.specs.Prelude.{◌≡◌, ◌≤◌, ℕ, Some, IfNone, IfSome};
ghost use Rattle.mach_cli.specs.Calls.{word_address, hex_value, hex_word, IsCputype};

// Returns the number of digits, if these are 1 to `most` hexadecimal ones, and nothing else.
fn value_of(digits: &str, most: usize) -> Option<u64>
    requires { most ≤ 16 }
    ensures { result ≡ hex_value most (Some digits.now) }
{
    if digits.len() > most || digits.starts_with('+') {
        return None;
    }
    u64::from_str_radix(digits, 16).ok()
}

// Returns the number in an argument: `0x`, and 1 to `most` hexadecimal digits.
fn number_in(word: &str, most: usize) -> Option<u64>
    requires { most ≤ 16 }
    ensures { result ≡ hex_word most word.now }
{
    value_of(word.strip_prefix("0x")?, most)
}

/// Returns the cpu number in an argument: `0x`, and 1 to 8 hexadecimal digits.
pub fn cputype_in(word: &str) -> Option<u32>
    ensures value { IfSome result (λ number. IsCputype word.now number) }
    ensures none { IfNone result ((number : ℕ) → IsCputype word.now number → ⊥) }
{
    u32::try_from(number_in(word, 8)?).ok()
}

/// Returns the address in an argument: 1 to 16 hexadecimal digits, perhaps after `0x`.
pub fn address_in(word: &str) -> Option<u64>
    ensures { result ≡ word_address word.now }
{
    value_of(word.strip_prefix("0x").unwrap_or(word), 16)
}
