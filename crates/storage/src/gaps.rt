//! Making space at a place and closing up: the same work for every kind of entry, and one of the fixed forms (docs/DECISIONS.md).
ghost use Rattle.std.specs.Prelude.{◌≡◌, ℕ, ◌+◌, ◌≤◌, length};
ghost use Rattle.storage.specs.Gaps.{closed, opened};

/// Moves the entries from `at` to `count` up by `n`.
pub(crate) fn open_gap<T: Copy>(items: &mut [T], count: usize, at: usize, n: usize)
    requires { (at ≤ count) × (count + n ≤ length items.old) }
    ensures { items.new ≡ opened items.old count at n }
{
    items.copy_within(at..count, at + n);
}

/// Moves the entries from `at + n` to `count` down by `n`.
pub(crate) fn close_gap<T: Copy>(items: &mut [T], count: usize, at: usize, n: usize)
    requires { (at + n ≤ count) × (count ≤ length items.old) }
    ensures { items.new ≡ closed items.old count at n }
{
    items.copy_within(at + n..count, at);
}
