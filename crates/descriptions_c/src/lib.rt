// Record descriptions for C and COBOL, told as `answers` says.
#![tactic(auto)]

ghost use Rattle.descriptions_c.specs.Description.{Describes};

use description_answers::described::tell_described;

#[unsafe(no_mangle)]
pub extern "C" fn oboecurlew_describe(
    text: &[u8],
    rows: &mut [u32],
    places: &mut [u32],
    names: &mut [u32],
    name_places: &mut [u32],
    literals: &mut [u32],
    bytes: &mut [u8],
    answer: &mut [u32; 9],
) -> u32
    ensures { Describes text.now rows.old places.old names.old name_places.old literals.old bytes.old result answer.new rows.new places.new names.new name_places.new literals.new bytes.new }
{
    tell_described(
        descriptions::calls::describe(text, rows, places, names, name_places, literals, bytes),
        answer,
    )
}
