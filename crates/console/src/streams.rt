// Bytes in and out.
ghost use Rattle.std.specs.Prelude.{◌≡◌, ◌≤◌, length, take};
ghost use Rattle.std.specs.Io.KnownBytes.{Consumes};

use std::io::Read;

// Reads until the room is full, the input ends or a read fails; how many bytes stand at the start of the room.
pub fn read_full<R: Read>(from: &mut R, room: &mut [u8]) -> usize
    ensures fits { result ≤ length room.new }
    ensures bytes { Consumes (R.remaining from.old) (R.remaining from.new) (take result room.new) }
{
    let mut done: usize = 0;
    // The step is what a read gave.
    while done < room.len() {
        match from.read(&mut room[done..]) {
            Ok(0) => return done,
            Ok(n) => done += n,
            Err(_) => return done,
        }
    }
    done
}

// All of the bytes to a stream; whether it took them.
pub fn write_all(to: &impl Print, bytes: &[u8]) -> bool {
    to.write_all(bytes).is_ok()
}

// The same of a number's decimal digits.
pub fn print_decimal(to: &impl Print, number: u64) -> bool {
    to.print(number).is_ok()
}
