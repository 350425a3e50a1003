//! The words and options of a program: a line for each, as `--help` prints it, and which of them a wrong word probably means.

ghost use Rattle.std.specs.Prelude.{◌≡◌, IfOk, IfSome};
ghost use Rattle.mach_cli.specs.Misuses.{most_edits, unknown_in, AreNear, IsNear};

use crate::call::is_shared;
use crate::misuse::Misuse;
use crate::program::Program;
use std::alloc::{AllocError, Allocator, Global};
use std::fmt;
use std::fmt::{Display, Formatter, Write};
use strsim::osa_distance;

// The options that programs share. Of one that a program describes itself the line here isn't printed.
const SHARED: &str = "      --json                print one JSON object per file, each on a line
      --quiet               print one line per file
      --limit N             print at most N lines per file
      --names FILE          also read the files that FILE lists, one name a line
  -0                        names in the lists of --names end with NUL
      --arch NAME           show only images for this cpu
      --cputype 0xN         show only images with this cputype
      --lossy               show what can be read of an image that is refused
      --at ADDRESS          print what each image has at an address
      --color WHEN          colour what is at fault: auto, always or never
  -h                        print the usage
      --help                print this help
      --version             print the name and version
";

// Returns the name in a line: that of a word, or the long name of an option, or its letter if it has no other.
fn name_in(line: &str) -> &str {
    'words: for word in line.split_whitespace() {
        if !word.ends_with(',') {
            return word;
        }
    }
    ""
}

// Whether one of these lines has this name.
fn has_name(lines: &str, name: &str) -> bool {
    'lines: for line in lines.lines() {
        if name_in(line) == name {
            return true;
        }
    }
    false
}

// Whether an option is one letter.
fn is_letter(option: &str) -> bool {
    option.len() == 2 && option.starts_with('-')
}

/// What a program is for, its words and options, and some examples.
#[derive(Clone, Copy)]
pub(crate) struct Help(pub Program);

impl Help {
    // Writes the lines of options: first those of the program's own, and then the shared ones that it has.
    fn write_options<W: Write>(self, f: &mut Formatter<W>) -> fmt::Result {
        let Program { flags, options, .. } = self.0;
        write!(f, "\nOptions:\n{flags}")?;
        'lines: for line in SHARED.lines() {
            let name = name_in(line);
            if is_shared(name, options) && !has_name(flags, name) {
                writeln!(f, "{line}")?;
            }
        }
        Ok(())
    }
}

impl Display for Help {
    fn fmt<W: Write>(&self, f: &mut Formatter<W>) -> fmt::Result {
        let Program {
            name,
            about,
            usage,
            words,
            examples,
            ..
        } = self.0;
        write!(f, "{about}\n{usage}")?;
        if !words.is_empty() {
            write!(f, "\nWords:\n{words}")?;
        }
        self.write_options(f)?;
        writeln!(
            f,
            "\nExamples:\n{examples}\nMore: 'man {name}', or '{name} --manual' if cargo has installed it"
        )
    }
}

// The nearest name to a word so far, and how many edits it takes to reach it.
#[derive(Clone, Copy)]
struct Nearest {
    name: Option<&'static str>,
    edits: usize,
}

impl Nearest {
    // Returns the nearest of this and of the names that a program has in some lines; the first of several. A letter is none.
    fn or_in<A: Allocator + Clone>(
        self,
        alloc: A,
        word: &str,
        lines: &'static str,
        program: &Program,
    ) -> Result<Nearest, AllocError>
        ensures { AreNear word.now self → IfOk result (AreNear word.now) }
    {
        let mut nearest = self;
        'lines: for line in lines.lines() {
            let name = name_in(line);
            let edits = osa_distance(alloc.clone()?, word, name)?;
            if edits < nearest.edits && !is_letter(name) && program.has(name) {
                nearest = Nearest {
                    name: Some(name),
                    edits,
                };
            }
        }
        Ok(nearest)
    }
}

// Returns the most edits that lead from a word to one that it may mean: two, and no more than half of its bytes.
fn most_edits(word: &str) -> usize
    ensures { result ≡ most_edits word.now }
{
    (word.len() / 2).min(2)
}

impl Program {
    // Whether it has a word or an option of this name.
    fn has(&self, name: &str) -> bool {
        is_shared(name, self.options) || has_name(self.flags, name) || has_name(self.words, name)
    }

    /// Returns its word or option that was probably meant in place of an unknown one, if one is near and memory doesn't run out.
    pub fn meant(&self, alloc: Global, misuse: Misuse<'_>) -> Option<&'static str>
        ensures { IfSome result (λ name. IfSome (unknown_in misuse.entry) (λ word. IsNear word name.now)) }
    {
        self.meant_by(alloc, misuse.unknown()?).unwrap_or(None)
    }

    // Returns its word or option that a word probably means: the nearest one, if one is near. A word that it has means none.
    fn meant_by<A: Allocator + Clone>(
        &self,
        alloc: A,
        word: &str,
    ) -> Result<Option<&'static str>, AllocError>
        ensures { IfOk result (λ meant. IfSome meant (λ name. IsNear word.now name.now)) }
    {
        let mut nearest = Nearest {
            name: None,
            edits: most_edits(word) + 1,
        };
        'lines: for lines in [self.words, self.flags, SHARED] {
            nearest = nearest.or_in(alloc.clone()?, word, lines, self)?;
        }
        Ok(if nearest.edits == 0 {
            None
        } else {
            nearest.name
        })
    }
}
