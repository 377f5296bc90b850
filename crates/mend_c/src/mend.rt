// Mending for C and COBOL.
ghost use Rattle.mend_c.specs.Mending.{Mends};

use answers::written::tell_listed;

#[unsafe(no_mangle)]
pub extern "C" fn oboecurlew_mend(
    items: &[u32],
    record: &mut [u8],
    changes: &mut [u32],
    answer: &mut [u32; 9],
) -> u32
    ensures { Mends items.now «record».old changes.old result answer.new «record».new changes.new }
{
    tell_listed(mender::calls::mend(items, record, changes), answer)
}
