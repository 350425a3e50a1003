//! The options of a program: those that programs share, and its own.

ghost use Rattle.std.specs.Prelude.{◌≡◌};
ghost use Rattle.mach_cli.specs.Calls.{is_json};

/// The form of what a call prints.
#[derive(Clone, Copy, Debug)]
pub enum Format {
    /// Lines.
    Text,
    /// One line for each file.
    Quiet,
    /// One JSON object for each file, on a line.
    Json,
}

impl Format {
    /// Whether it is JSON.
    pub fn is_json(self) -> bool
        ensures { result ≡ is_json self }
    {
        matches!(self, Format::Json)
    }
}

/// The shared options that a program has.
#[derive(Clone, Copy)]
pub struct Options {
    /// `--limit`.
    pub has_limit: bool,
    /// `--arch`.
    pub has_arch: bool,
    /// `--cputype`.
    pub has_cputype: bool,
    /// `--names` and `-0`, for programs that take several files. For these an argument that isn't text doesn't stop the others.
    pub has_files: bool,
    /// `--json`.
    pub has_json: bool,
    /// `--quiet`.
    pub has_quiet: bool,
    /// `--at`.
    pub has_address: bool,
    /// `--load-address`.
    pub has_load_address: bool,
    /// `--lossy`.
    pub has_lossy: bool,
}

impl Options {
    /// None of these options.
    pub const NONE: Options = Options {
        has_limit: false,
        has_arch: false,
        has_cputype: false,
        has_files: false,
        has_json: false,
        has_quiet: false,
        has_address: false,
        has_load_address: false,
        has_lossy: false,
    };

    /// The options of a program that shows the images of files.
    pub const OF_IMAGES: Options = Options {
        has_limit: true,
        has_arch: true,
        has_cputype: true,
        has_files: true,
        has_json: true,
        has_quiet: false,
        has_address: false,
        has_load_address: false,
        has_lossy: true,
    };
}

/// The options that only one program has, as far as they are given.
pub trait OwnOptions: Drop {
    ghost use Rattle.std.specs.Prelude.{◌≡◌, Bool, List, ℕ};

    // These options after an argument, and whether the argument is one of them.
    ghost taken: { Self → List ℕ → Self × Bool };

    /// Takes an argument that is no shared option and begins with a dash, and returns whether it is one of these options.
    fn take(&mut self, argument: &str) -> bool
        ensures { (self.new, result) ≡ taken self.old argument.now };
}

/// The options of a program that has only shared ones.
#[derive(Clone, Copy, Drop)]
pub struct SharedOnly;

impl OwnOptions for SharedOnly {
    ghost use Rattle.std.specs.Prelude.{false};

    ghost taken = { λ s _. (s, false) };

    fn take(&mut self, _argument: &str) -> bool {
        false
    }
}
