//! How a pointer is signed, and what a rebase adjusts, as the values of fields.

ghost use Rattle.std.specs.Prelude.{◌≡◌};
ghost use Rattle.mach_parts.specs.PointerSigning.{auth_option_view};
ghost use Rattle.mach_cli.specs.Signing.{diverse_by, diversity_by, has_auth, key_by, rebase_type};

use goblin_mach::RebaseKind;
use goblin_mach::chained_fixups::PointerAuth;

/// Whether a pointer is signed.
pub fn has_auth(auth: Option<PointerAuth>) -> bool
    ensures { result ≡ has_auth (auth_option_view auth) }
{
    match auth {
        Some(_) => true,
        None => false,
    }
}

/// Returns the key of a signed pointer, 0 if it isn't signed.
pub fn key_by(auth: Option<PointerAuth>) -> u8
    ensures { result ≡ key_by (auth_option_view auth) }
{
    match auth {
        Some(auth) => auth.key,
        None => 0,
    }
}

/// Returns the diversity of a signed pointer, 0 if it isn't signed.
pub fn diversity_by(auth: Option<PointerAuth>) -> u16
    ensures { result ≡ diversity_by (auth_option_view auth) }
{
    match auth {
        Some(auth) => auth.diversity,
        None => 0,
    }
}

/// Whether the address of a signed pointer is mixed in, too.
pub fn diverse_by(auth: Option<PointerAuth>) -> bool
    ensures { result ≡ diverse_by (auth_option_view auth) }
{
    match auth {
        Some(auth) => auth.is_address_diverse,
        None => false,
    }
}

/// Returns what a rebase adjusts.
pub fn rebase_type(kind: RebaseKind) -> &'static str
    ensures { result.now ≡ rebase_type kind }
{
    match kind {
        RebaseKind::Pointer => "pointer",
        RebaseKind::TextAbsolute32 => "absolute32",
        RebaseKind::TextRelative32 => "relative32",
    }
}
