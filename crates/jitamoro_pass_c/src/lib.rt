// Exported to C and Rust: the pass, which the caller holds in place. include/jitamoro.h says the same in C. The functions
// take any arguments; a slice is passed as a pointer and a length.
// Kept: C passes a record's fields one by one, and has a refusal as its number.
#![tactic(auto)]

ghost use Rattle.std.specs.Prelude.{◌≡◌};
ghost use Rattle.rules.specs.Answer.{refusal_of};
ghost use Rattle.rules.specs.Record.{relocation};
ghost use Rattle.rules.specs.Meaning.{SameMeaning};
ghost use Rattle.pass.specs.Pass.{fresh_pass, ending};
ghost use Rattle.jitamoro_pass.specs.Layout.{pass_of, words_step, words_ended};

use jitamoro_pass::{PassWords, StepAnswer};
use pass::Pass;
use rules::Relocation;

// A pass before its first record.
#[unsafe(no_mangle)]
pub extern "C" fn jitamoro_pass_fresh() -> PassWords
    ensures { pass_of result ≡ fresh_pass }
{
    PassWords::default()
}

// Takes one record. Refusals 21, 1, 2, 3, 4, 22, 6, 23, which change nothing.
#[unsafe(no_mangle)]
#[tactic(auto, using(rules::proofs::Theorem::same_meaning_of))]
pub extern "C" fn jitamoro_pass_step(
    pass: &mut PassWords,
    r_type: u32,
    section: &mut [u8],
    offset: u64,
    flags: u8,
    output_kind: u8,
    executable: bool,
    address: u64,
    addend: i64,
) -> StepAnswer
    ensures step { (result, pass.new, section.new) ≡ words_step pass.old section.old (relocation r_type offset flags output_kind executable address addend) }
    ensures same_meaning { SameMeaning section.old }
{
    let rel = Relocation {
        r_type,
        offset,
        flags,
        output_kind,
        executable,
        address,
        addend,
    };
    match pass.settle(section, rel) {
        Some(answer) => pass.pass_by(offset, answer),
        None => pass.finish(Pass::from(*pass).step(section, rel)),
    }
}

// Ends a pass: 0, or refusal 21 or 24, which change nothing.
#[unsafe(no_mangle)]
pub extern "C" fn jitamoro_pass_end(pass: &mut PassWords) -> u8
    ensures value { result ≡ refusal_of (ending (pass_of pass.old)) }
    ensures pass_after { pass.new ≡ words_ended pass.old (ending (pass_of pass.old)) }
{
    match Pass::from(*pass).end().end {
        Ok(()) => {
            pass.ended = 1;
            0
        }
        Err(refusal) => refusal.number(),
    }
}
