//! Numbers that C reads, as many as it has room for.

ghost use Rattle.std.specs.Prelude.{◌≡◌};
ghost use Rattle.tw_handles.specs.Numbers.{filled};

/// Writes numbers to the start of a buffer. Those that it has no room for are left out, and the rest of it is unchanged.
pub fn put(found: &[u64], numbers: &mut [u64])
    ensures { numbers.new ≡ filled found.now numbers.old }
{
    let count = found.len().min(numbers.len());
    numbers[..count].copy_from_slice(&found[..count]);
}
