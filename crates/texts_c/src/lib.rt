// Conditions as printed, for C and COBOL, told as `answers` says.
#![tactic(auto)]

ghost use Rattle.texts_c.specs.Texts.{Reads, Prints};

use print_answers::printed::tell_printed;
use text_answers::recognized::tell_read;

#[unsafe(no_mangle)]
pub extern "C" fn oboecurlew_read(
    description: &[u8],
    condition: &[u8],
    tokens: &mut [u32],
    literals: &mut [u32],
    bytes: &mut [u8],
    answer: &mut [u32; 9],
) -> u32
    ensures { Reads description.now condition.now tokens.old literals.old bytes.old result answer.new tokens.new literals.new bytes.new }
{
    tell_read(
        texts::calls::read(description, condition, tokens, literals, bytes),
        answer,
    )
}

#[unsafe(no_mangle)]
pub extern "C" fn oboecurlew_print(
    description: &[u8],
    literals: &[u32],
    bytes: &[u8],
    tokens: &[u32],
    text: &mut [u8],
    answer: &mut [u32; 9],
) -> u32
    ensures { Prints description.now literals.now bytes.now tokens.now text.old result answer.new text.new }
{
    tell_printed(
        printouts::printing::print(description, literals, bytes, tokens, text),
        answer,
    )
}
