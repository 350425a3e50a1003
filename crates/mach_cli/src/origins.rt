//! From which image a symbol comes, by a short name.

ghost use Rattle.std.specs.Prelude.{◌≡◌, option_map};
ghost use Rattle.mach_base.specs.Text.{texts};
ghost use Rattle.mach_parts.specs.Bindings.{provider_of, provider_view};
ghost use Rattle.mach_cli.specs.Origins.{last_component, ordinal_of, origin_of, provider_name, library_short_name, unless_empty, without_dylib};

use goblin_mach::Provider;

// The longest path that a system opens (`MAXPATHLEN` of `sys/param.h`).
const LONGEST_PATH: usize = 1024;

// Returns what follows the last slash of a path, all of it if it has none.
fn last_component(path: &str) -> &str
    ensures { result.now ≡ last_component path.now }
{
    match path.rsplit_once('/') {
        Some((_, last)) => last,
        None => path,
    }
}

// Returns a name without `.dylib` at its end.
fn without_dylib(name: &str) -> &str
    ensures { result.now ≡ without_dylib name.now }
{
    match name.strip_suffix(".dylib") {
        Some(front) => front,
        None => name,
    }
}

// Returns a name, unless it is empty.
fn unless_empty(name: &str) -> Option<&str>
    ensures { option_map (λ t. t.now) result ≡ unless_empty name.now }
{
    if name.is_empty() { None } else { Some(name) }
}

/// Returns the short name of a library, if it isn't empty. A longer path has none, so that a bind takes no time by its length.
pub fn library_short_name(path: &str) -> Option<&str>
    ensures { option_map (λ t. t.now) result ≡ library_short_name path.now }
{
    if path.len() > LONGEST_PATH {
        return None;
    }
    unless_empty(without_dylib(last_component(path)))
}

/// Returns the short name of a provider, if it isn't empty.
pub fn provider_name<'a>(provider: &Provider<'a>) -> Option<&'a str>
    ensures { option_map (λ t. t.now) result ≡ provider_name (provider_view provider.now) }
{
    match provider {
        Provider::Library { name, .. } => library_short_name(name),
        Provider::Itself => Some("itself"),
        Provider::MainExecutable => Some("main-executable"),
        Provider::Flat => Some("flat"),
        Provider::WeakLookup => Some("weak-lookup"),
    }
}

/// Returns the ordinal of a provider: 0 for the image itself, above 0 for a library of its list, -1 for the main executable, -2 for
/// any image, -3 for weak lookup.
pub fn ordinal_of(provider: &Provider<'_>) -> i128
    ensures { result ≡ ordinal_of (provider_view provider.now) }
{
    match provider {
        Provider::Library { ordinal, .. } => i128::from(*ordinal),
        Provider::Itself => 0,
        Provider::MainExecutable => -1,
        Provider::Flat => -2,
        Provider::WeakLookup => -3,
    }
}

/// Returns the short name of the provider that an ordinal has, if it has one, given the image's libraries.
pub fn origin_of<'a>(libs: &[&'a str], ordinal: i32) -> Option<&'a str>
    ensures { option_map (λ t. t.now) result ≡ origin_of (provider_of (texts libs.now) ordinal) }
{
    match Provider::of_ordinal(libs, i64::from(ordinal)) {
        Ok(provider) => provider_name(&provider),
        Err(_) => None,
    }
}
