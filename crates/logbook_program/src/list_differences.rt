// differ: the items that differ between two copies, side by side.
ghost use Rattle.std.specs.Prelude.{◌≤◌};

use crate::changes::{change, part};
use crate::files::{large, load};
use crate::refusals::of_record;
use content::Row;
use differences::calls::differ;
use fronts::{front, front_bytes};
use tables::rows::row_at;

const OUTPUT: usize = 128;

fn row_line(
    rt: HostRuntime,
    description: &[u8],
    items: &[u32],
    places: &[u32],
    first: &[u8],
    second: &[u8],
    v: usize,
    what: &[u8],
) {
    if v < items.len() / Row::WIDTH {
        let row = row_at(items, v);
        change(
            rt,
            description,
            places,
            v,
            what,
            part(row, first),
            part(row, second),
        );
    }
}

// One item, in words for its mark.
fn marked(
    rt: HostRuntime,
    description: &[u8],
    items: &[u32],
    places: &[u32],
    first: &[u8],
    second: &[u8],
    v: usize,
    mark: u32,
) {
    match mark {
        0x42 => row_line(
            rt,
            description,
            items,
            places,
            first,
            second,
            v,
            b"same value",
        ),
        0x49 => row_line(
            rt,
            description,
            items,
            places,
            first,
            second,
            v,
            b"not valid",
        ),
        _ => row_line(
            rt,
            description,
            items,
            places,
            first,
            second,
            v,
            b"other value",
        ),
    }
}

// A line for each row and mark; and the status, 1 where there is one.
fn lines(
    rt: HostRuntime,
    description: &[u8],
    items: &[u32],
    places: &[u32],
    first: &[u8],
    second: &[u8],
    list: &[u32],
) -> u32
    ensures { result ≤ 2 }
{
    for pair in list.chunks_exact(2) {
        marked(
            rt,
            description,
            items,
            places,
            first,
            second,
            pair[0] as usize,
            pair[1],
        );
    }
    if list.len() < 2 {
        return 0;
    }
    1
}

fn compared(
    rt: HostRuntime,
    description: &[u8],
    items: &[u32],
    places: &[u32],
    first: &[u8],
    second: &[u8],
) -> u32
    ensures { result ≤ 2 }
{
    let mut output = [0u32; OUTPUT];
    let written = differ(items, first, second, &mut output);
    match written {
        Ok(n) => lines(
            rt,
            description,
            items,
            places,
            first,
            second,
            front(&output, n),
        ),
        Err(refusal) => {
            of_record(rt, refusal, description, places);
            2
        }
    }
}

fn with_second(
    rt: HostRuntime,
    description: &[u8],
    items: &[u32],
    places: &[u32],
    first: &[u8],
) -> u32
    ensures { result ≤ 2 }
{
    let mut second = large();
    match load(rt, 4, &mut second) {
        None => 2,
        Some(n) => compared(
            rt,
            description,
            items,
            places,
            first,
            front_bytes(&second, n),
        ),
    }
}

pub(crate) fn list_differences(
    rt: HostRuntime,
    description: &[u8],
    items: &[u32],
    places: &[u32],
) -> u32
    ensures { result ≤ 2 }
{
    let mut first = large();
    match load(rt, 3, &mut first) {
        None => 2,
        Some(n) => with_second(rt, description, items, places, front_bytes(&first, n)),
    }
}
