//! How many items of a list are visited.

ghost use Rattle.std.specs.Prelude.{◌≡◌};
ghost use Rattle.mach_cli.specs.Bounds.{most_images, most_items};

/// Returns how many items of a list in a file are visited at most: no more than the limit, and no more than the file has bytes.
pub fn most_items(limit: usize, bytes: &[u8]) -> usize
    ensures { result ≡ most_items limit bytes.now }
{
    limit.min(bytes.len())
}

/// Returns how many images of a file are shown if so many of its lines are: as many, and one at least.
pub fn most_images(limit: usize) -> usize
    ensures { result ≡ most_images limit }
{
    limit.max(1)
}
