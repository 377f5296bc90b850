// The tokens of a condition, converted one by one. A NOT waits for the token after it, which tells whether it is written.
ghost use Rattle.std.specs.Prelude.{◌≡◌, ◌++◌, ◌≤◌, length, drop};
ghost use Rattle.grammar.specs.Converted.{not_if, converted_tokens};
ghost use Rattle.conversion.specs.Steps.{leads, on_word, step};

use tables::tokens::{SPAN, SWITCH_OFF};
use tables::words::NOT;

// The on token of an off token; any other token as it is.
fn on_word(token: u32) -> u32
    ensures { result ≡ on_word token }
{
    if token / SPAN == SWITCH_OFF {
        return token - SPAN;
    }
    token
}

// Whether NOT is written before a token: the one that waits, but before an off token only where none does.
fn leads_not(waits: bool, token: u32) -> bool
    ensures { result ≡ leads waits token }
{
    if token / SPAN == SWITCH_OFF {
        return !waits;
    }
    waits
}

fn not_width(needed: bool) -> usize
    ensures { result ≡ length (not_if needed) }
{
    if needed {
        return 1;
    }
    0
}

// How many tokens are written for a token.
fn step_width(waits: bool, token: u32) -> usize
    ensures { result ≡ length (step waits token) }
{
    let lead = not_width(leads_not(waits, token));
    if token == NOT {
        return lead;
    }
    lead + 1
}

// How many tokens the converted condition has.
pub fn converted_length(tokens: &[u32]) -> usize
    ensures { result ≡ length (converted_tokens tokens.now) }
{
    let mut count = 0;
    let mut waits = false;
    for token in tokens {
        count += step_width(waits, *token);
        waits = *token == NOT;
    }
    count + not_width(waits)
}

// NOT where it is needed, at the start of the output; and how many tokens that is.
fn write_not(out: &mut [u32], needed: bool) -> usize
    requires { length (not_if needed) ≤ length out.old }
    ensures value { result ≡ length (not_if needed) }
    ensures out_after { out.new ≡ not_if needed ++ drop result out.old }
{
    if needed {
        out[0] = NOT;
        return 1;
    }
    0
}

// What is written for a token, at the start of the output; and how many tokens that is.
fn write_step(out: &mut [u32], waits: bool, token: u32) -> usize
    requires { length (step waits token) ≤ length out.old }
    ensures value { result ≡ length (step waits token) }
    ensures out_after { out.new ≡ step waits token ++ drop result out.old }
{
    let end = write_not(out, leads_not(waits, token));
    if token == NOT {
        return end;
    }
    out[end] = on_word(token);
    end + 1
}

// The converted condition, at the start of the output; and its length.
pub fn write_converted(tokens: &[u32], out: &mut [u32]) -> usize
    requires { length (converted_tokens tokens.now) ≤ length out.old }
    ensures value { result ≡ length (converted_tokens tokens.now) }
    ensures out_after { out.new ≡ converted_tokens tokens.now ++ drop result out.old }
{
    let mut written = 0;
    let mut waits = false;
    for token in tokens {
        written += write_step(&mut out[written..], waits, *token);
        waits = *token == NOT;
    }
    written + write_not(&mut out[written..], waits)
}
