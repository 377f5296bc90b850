// What differs between two copies of a record, for C and COBOL.
ghost use Rattle.differ_c.specs.Differences.{Differs};

use answers::written::tell_listed;

#[unsafe(no_mangle)]
pub extern "C" fn oboecurlew_differ(
    items: &[u32],
    first: &[u8],
    second: &[u8],
    output: &mut [u32],
    answer: &mut [u32; 9],
) -> u32
    ensures { Differs items.now first.now second.now output.old result answer.new output.new }
{
    tell_listed(
        differences::calls::differ(items, first, second, output),
        answer,
    )
}
