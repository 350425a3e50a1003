//! The arguments of a run.

ghost use Rattle.std.specs.Prelude.{◌≡◌};
ghost use Rattle.machresolve.specs.Lines.{file_at};
ghost use Rattle.mach_resolve.specs.Opened.{given_view};
ghost use Rattle.machresolve.specs.CallViews.{call_view_of};

use mach_resolve::Given;

/// The arguments of a run.
#[derive(Clone, Copy)]
pub struct Call<'a, 'b> {
    /// How many bindings are answered at most, those of all images of the program together.
    pub limit: usize,
    /// The program, which is file 0.
    pub program: Given<'a>,
    /// The libraries, which are the files after it.
    pub libraries: &'b [Given<'a>],
}

impl<'a> Call<'a, '_> {
    /// Returns the file with a number.
    pub fn file_at(&self, number: usize) -> Given<'a>
        ensures { given_view result ≡ file_at (call_view_of self.now) number }
    {
        match number.checked_sub(1) {
            Some(index) => self.libraries.get(index).copied().unwrap_or(self.program),
            None => self.program,
        }
    }
}
