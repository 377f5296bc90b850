// Pieces of lines, on standard output or on standard error.
use console::arguments;
use console::streams::write_all;
use fronts::front_bytes;
use number_lines::numbers::put_number;

pub(crate) fn text(to: &impl Print, bytes: &[u8]) {
    write_all(to, bytes);
}

pub(crate) fn number(to: &impl Print, n: usize) {
    let mut digits = [0u8; 20];
    let end = put_number(&mut digits, 0, n);
    text(to, front_bytes(&digits, end));
}

// Argument i as it was given.
pub(crate) fn argument(rt: HostRuntime, to: &impl Print, i: usize) {
    let mut name = [0u8; 4096];
    let n = arguments::argument(&rt, i, &mut name);
    text(to, front_bytes(&name, n));
}

// Argument i and what is to be said of it.
pub(crate) fn complaint(rt: HostRuntime, i: usize, what: &[u8]) {
    argument(rt, &rt.stderr(), i);
    text(&rt.stderr(), what);
}
