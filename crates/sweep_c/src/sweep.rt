// A plan over a whole file, for C and COBOL.
ghost use Rattle.tables.specs.Operands.{lend_names};
ghost use Rattle.sweeps.specs.Sweep.{sweep_gives};
ghost use Rattle.sweep_c.specs.Sweeping.{SweepsTo};

use record_answers::swept::tell_swept;

#[unsafe(no_mangle)]
pub extern "C" fn oboecurlew_sweep<'a>(
    items: &[u32],
    literals: &[u32],
    bytes: &'a [u8],
    names: &[u32],
    plan: &[u32],
    records: &'a [u8],
    size: usize,
    switches: u8,
    answers: &mut [u32],
    answer: &mut [u32; 9],
) -> u32
    ensures { SweepsTo (sweep_gives (lend_names items.now literals.now bytes.now names.now) plan.now records.now size switches answers.old) result answer.new answers.new }
{
    tell_swept(
        sweeper::calls::sweep(
            items, literals, bytes, names, plan, records, size, switches, answers,
        ),
        answer,
    )
}
