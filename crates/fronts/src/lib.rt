// Parts of lent numbers and bytes, and numbers as bytes: what the programs' calls take.
#![tactic(auto)]

ghost use Rattle.std.specs.Prelude.{◌≡◌, take};
ghost use Rattle.fronts.specs.Fronts.{low_byte, Narrows};

// The first n numbers, or all.
pub fn front(numbers: &[u32], n: usize) -> &[u32]
    ensures { result.now ≡ take n numbers.now }
{
    if n <= numbers.len() {
        return &numbers[0..n];
    }
    numbers
}

// The first n bytes, or all.
pub fn front_bytes(bytes: &[u8], n: usize) -> &[u8]
    ensures { result.now ≡ take n bytes.now }
{
    if n <= bytes.len() {
        return &bytes[0..n];
    }
    bytes
}

pub fn low_byte(number: u32) -> u8
    ensures { result ≡ low_byte number }
{
    (number % 256) as u8
}

// Numbers as bytes, as far as there is room; how many they are.
pub fn narrow(numbers: &[u32], bytes: &mut [u8]) -> usize
    ensures { Narrows numbers.now bytes.old result bytes.new }
{
    for (i, number) in numbers.iter().enumerate() {
        if i >= bytes.len() {
            return i;
        }
        bytes[i] = low_byte(*number);
    }
    numbers.len()
}
