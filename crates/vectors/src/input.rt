// Words from standard input: 32 bits, the lowest byte first.
ghost use Rattle.std.specs.Prelude.{◌≡◌, ◌≤◌, length};
ghost use Rattle.vectors.specs.Parts.{word_of, Decodes, Held};

use console::streams::read_full;
use fronts::front_bytes;
use std::io::Read;

// Room for the bytes of every case.
const RAW: usize = 8192;

fn word(first: u8, second: u8, third: u8, fourth: u8) -> u32
    ensures { result ≡ word_of first second third fourth }
{
    u32::from(first)
        + u32::from(second) * 256
        + u32::from(third) * 65536
        + u32::from(fourth) * 16777216
}

// 0 where the input has ended. Free: any other word, which is the input's.
pub(crate) fn read_word(input: &mut impl Read) -> u32
    ensures { result ≤ 4294967295 }
{
    let mut raw = [0u8; 4];
    let got = read_full(input, &mut raw);
    if got < 4 {
        return 0;
    }
    word(raw[0], raw[1], raw[2], raw[3])
}

// As many words as both have room for; how many they are.
fn decode(raw: &[u8], words: &mut [u32]) -> usize
    ensures { Decodes raw.now words.old result words.new }
{
    let mut at: usize = 0;
    for count in 0..words.len() {
        if raw.len() - at < 4 {
            return count;
        }
        words[count] = word(raw[at], raw[at + 1], raw[at + 2], raw[at + 3]);
        at += 4;
    }
    words.len()
}

fn read_raw(input: &mut impl Read, raw: &mut [u8], words: &mut [u32]) -> usize
    ensures { Held result words.old words.new }
{
    let count = read_word(input) as usize;
    if count > raw.len() / 4 {
        return 0;
    }
    let size = count * 4;
    let got = read_full(input, &mut raw[0..size]);
    decode(front_bytes(raw, got), words)
}

// The words that a word counts, as far as there are so many; none if no case has so many. Free: the words themselves, which are the
// input's.
pub(crate) fn read_words(input: &mut impl Read, words: &mut [u32]) -> usize
    ensures { Held result words.old words.new }
{
    let mut raw = [0u8; RAW];
    read_raw(input, &mut raw, words)
}
