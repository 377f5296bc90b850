// Lines on standard output.
use console::streams::{print_decimal, write_all};
use fronts::front;
use refusal_numbers::number_of;
use tables::Refusal;

pub(crate) fn refusal(rt: &impl Print, number: u32) {
    write_all(rt, b"R ");
    print_decimal(rt, number as u64);
    write_all(rt, b"\n");
}

fn item(rt: &impl Print, row: u32, mark: u32) {
    print_decimal(rt, row as u64);
    match mark {
        0x42 => write_all(rt, b" B\n"),
        0x49 => write_all(rt, b" I\n"),
        _ => write_all(rt, b" V\n"),
    };
}

// A line for each row and mark.
fn items(rt: &impl Print, list: &[u32]) {
    for pair in list.chunks_exact(2) {
        item(rt, pair[0], pair[1]);
    }
}

pub(crate) fn written(rt: &impl Print, written: Result<usize, Refusal>, output: &[u32]) {
    match written {
        Ok(n) => items(rt, front(output, n)),
        Err(refused) => refusal(rt, number_of(refused)),
    }
}
