// Numbers written to the outputs.
ghost use Rattle.std.specs.Prelude.{◌≡◌, ◌++◌, map, ◌*◌, ◌≤◌, length, take, drop};
ghost use Rattle.noting.specs.Stored.{noted_from};
ghost use Rattle.outputs.specs.Noted.{named_of};

pub fn copy_numbers(from: &[u32], n: usize, to: &mut [u32])
    requires { (n ≤ length from.now) × (n ≤ length to.old) }
    ensures { to.new ≡ take n from.now ++ drop n to.old }
{
    to[..n].copy_from_slice(&from[..n]);
}

// The place of each entry's name or FILLER.
pub fn copy_named(entries: &[u32], n: usize, to: &mut [u32])
    requires { (n * 7 ≤ length entries.now) × (n ≤ length to.old) }
    ensures { to.new ≡ map named_of (noted_from entries.now 0 n) ++ drop n to.old }
{
    for i in 0..n {
        to[i] = entries[i * 7 + 2];
    }
}
