// Exported to C and Rust: a pass's step with the tally, whose 22 figures the caller holds beside the pass.
// include/jitamoro.h says the same in C. The functions take any arguments.
// Kept: C passes a record's fields one by one, and has a refusal as its number.
// Kept: the step is jitamoro_pass_step's but for the counts. Over a counter both would need a trait of two methods, each
// with its law, for fewer lines than that.
#![tactic(auto)]

ghost use Rattle.std.specs.Prelude.{◌≡◌};
ghost use Rattle.rules.specs.Record.{relocation};
ghost use Rattle.rules.specs.Meaning.{SameMeaning};
ghost use Rattle.pass.specs.Answers.{step};
ghost use Rattle.jitamoro_pass.specs.Layout.{pass_of, words_step};
ghost use Rattle.tally.specs.Tally.{fresh_tally, tallied};
ghost use Rattle.jitamoro_tally.specs.Held.{Held};

use jitamoro_pass::{PassWords, StepAnswer};
use pass::Pass;
use rules::Relocation;
use tally::Tally;

// The tally of a pass before its first record. The contract also says that a walk by the exported functions is the
// pass's own, of which `Tallies` and `Walks` speak.
#[unsafe(no_mangle)]
#[tactic(auto, using(crate::proofs::Held::held))]
pub extern "C" fn jitamoro_tally_fresh() -> Tally
    ensures figures_value { result.figures ≡ fresh_tally }
    ensures held { Held }
{
    Tally::fresh()
}

// Takes one record as jitamoro_pass_step does, and counts it. A refusal changes no figure.
#[unsafe(no_mangle)]
#[tactic(auto, using(rules::proofs::Theorem::same_meaning_of))]
pub extern "C" fn jitamoro_tally_step(
    pass: &mut PassWords,
    tally: &mut Tally,
    r_type: u32,
    section: &mut [u8],
    offset: u64,
    flags: u8,
    output_kind: u8,
    executable: bool,
    address: u64,
    addend: i64,
) -> StepAnswer
    ensures step { (result, pass.new, section.new) ≡ words_step pass.old section.old (relocation r_type offset flags output_kind executable address addend) }
    ensures tally_after { tally.new.figures ≡ tallied tally.old.figures (step (pass_of pass.old) section.old (relocation r_type offset flags output_kind executable address addend)).stepped.step }
    ensures same_meaning { SameMeaning section.old }
{
    let rel = Relocation {
        r_type,
        offset,
        flags,
        output_kind,
        executable,
        address,
        addend,
    };
    match pass.settle(section, rel) {
        Some(answer) => {
            tally.count_no_op(!answer.choice.is_none());
            pass.pass_by(offset, answer)
        }
        None => {
            let stepped = Pass::from(*pass).step(section, rel);
            tally.count(stepped.step);
            pass.finish(stepped)
        }
    }
}
