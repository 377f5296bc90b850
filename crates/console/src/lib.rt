// What the programs ask of the system: their arguments, files by name, and bytes to read and write. What the system answers is free:
// the contracts say how much of a room is filled, and with what only where the reader's own type knows it.
#![tactic(auto)]

pub mod arguments; // the program's arguments
pub mod files; // files by their names
pub mod streams; // bytes in and out
