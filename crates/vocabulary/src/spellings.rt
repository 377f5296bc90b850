// The bytes of the words, one word after the other.
ghost use Rattle.std.specs.Prelude.{◌≡◌, [], ◌≤◌, ◌<◌, ◌-◌, length, get_or, take, drop};
ghost use Rattle.description.specs.Grammar.{same};
ghost use Rattle.spelling.specs.Meanings.{position};
ghost use Rattle.literal_bytes.specs.Written.{written_over};
ghost use Rattle.vocabulary.specs.Spellings.{starts, spelt};

use keywords::same_bytes;
use literal_bytes::copies::copy_bytes;
use text_bytes::bytes::byte_at;

// Where the words stand in the list: first document 01's by their numbers, then the switches, then those that other words may join.
pub const AT_SWITCHES: usize = 17;

pub const AT_GREATER: usize = 25;

pub const AT_LESS: usize = 26;

pub const AT_EQUAL: usize = 27;

const COUNT: usize = 28;

// Where word k starts.
fn start_of(k: usize) -> usize
    ensures { result ≡ get_or starts k 0 }
{
    usize::from(byte_at(
        b"\x00\x01\x02\x05\x08\x0a\x0b\x0c\x0d\x0f\x11\x18\x22\x32\x42\x4a\x52\x56\x5c\x62\x68\x6e\x74\x7a\x80\x86\x8d\x91\x96",
        k,
    ))
}

pub fn word_size(k: usize) -> usize
    requires { k < 28 }
    ensures { result ≡ length (get_or spelt k []) }
{
    start_of(k + 1) - start_of(k)
}

fn is_part(all: &[u8], start: usize, end: usize, w: &[u8]) -> bool
    requires { (start ≤ end) × (end ≤ length all.now) }
    ensures { result ≡ same w.now (take (end - start) (drop start all.now)) }
{
    same_bytes(w, &all[start..end])
}

fn is_word(w: &[u8], k: usize) -> bool
    requires { k < 28 }
    ensures { result ≡ same w.now (get_or spelt k []) }
{
    is_part(
        b"()NOTANDOR><=>=<=NUMERICALPHABETICALPHABETIC-LOWERALPHABETIC-UPPERPOSITIVENEGATIVEZEROUPSI-0UPSI-1UPSI-2UPSI-3UPSI-4UPSI-5UPSI-6UPSI-7GREATERLESSEQUAL",
        start_of(k),
        start_of(k + 1),
        w,
    )
}

// The number of a word, or 28 of any other word.
pub fn word_index(w: &[u8]) -> usize
    ensures { result ≡ position w.now spelt }
{
    for k in 0..COUNT {
        if is_word(w, k) {
            return k;
        }
    }
    COUNT
}

fn copy_part(all: &[u8], start: usize, end: usize, out: &mut [u8])
    requires { (start ≤ end) × (end ≤ length all.now) × (end - start ≤ length out.old) }
    ensures { out.new ≡ written_over (take (end - start) (drop start all.now)) out.old }
{
    copy_bytes(&all[start..end], out);
}

pub fn copy_word(k: usize, out: &mut [u8])
    requires { (k < 28) × (length (get_or spelt k []) ≤ length out.old) }
    ensures { out.new ≡ written_over (get_or spelt k []) out.old }
{
    copy_part(
        b"()NOTANDOR><=>=<=NUMERICALPHABETICALPHABETIC-LOWERALPHABETIC-UPPERPOSITIVENEGATIVEZEROUPSI-0UPSI-1UPSI-2UPSI-3UPSI-4UPSI-5UPSI-6UPSI-7GREATERLESSEQUAL",
        start_of(k),
        start_of(k + 1),
        out,
    );
}
