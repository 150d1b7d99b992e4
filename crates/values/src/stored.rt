// How values lie in memory that does not grow.
ghost use Rattle.std.specs.Prelude.{◌≡◌, ◌-◌, ◌++◌, length, take, replicate};

// The items, as many as there is room for, and the rest of the places filled.
pub fn padded<T: Copy, const N: usize>(items: &[T], rest: T) -> [T; N]
    ensures { result ≡ take N items.now ++ replicate (N - length items.now) rest }
{
    let mut all = [rest; N];
    let kept = items.len().min(N);
    all[..kept].copy_from_slice(&items[..kept]);
    all
}
