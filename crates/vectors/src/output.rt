// An output before a call, and its checksum after it.
ghost use Rattle.std.specs.Prelude.{◌≡◌, ◌*◌, ◌%◌, length};
ghost use Rattle.vectors.specs.Sums.{filled, checksum_of};

use std::num::wrapping_add_u32;

// Number i holds 3,000,000,000 + i.
pub(crate) fn fill(output: &mut [u32])
    ensures { output.new ≡ filled (length output.old) }
{
    let mut next: u32 = 3000000000;
    for number in output.iter_mut() {
        *number = next;
        next = wrapping_add_u32(next, 1);
    }
}

fn times_prime(x: u32) -> u32
    ensures { result ≡ x * 16777619 % 4294967296 }
{
    (u64::from(x) * 16777619 % 4294967296) as u32
}

pub(crate) fn checksum(output: &[u32]) -> u32
    ensures { result ≡ checksum_of output.now }
{
    let mut sum: u32 = 2166136261;
    for number in output {
        sum = times_prime(sum ^ *number);
    }
    sum
}
