// Exported to C and Rust: relaxing one record. include/jitamoro.h says the same in C. The function takes any arguments; a
// slice is passed as a pointer and a length. In an answer a refusal is 0, or a number of document 01, and then every other
// field is 0.
// Kept: C passes a record's fields one by one and has a refusal as its number.
#![tactic(auto)]

ghost use Rattle.std.specs.Prelude.{◌≡◌};
ghost use Rattle.rules.specs.Record.{link_limit, relocation};
ghost use Rattle.rules.specs.Rewrite.{relaxing, after_relaxing};
ghost use Rattle.rules.specs.Meaning.{SameMeaning};
ghost use Rattle.relax.specs.Answers.{relaxed_of};
ghost use Rattle.answers.specs.Layout.{relaxed_layout};

use answers::RelaxedAnswer;
use rules::Relocation;

// Relaxes one record in its section. Refusals 1, 2, 3, 4, 6.
#[unsafe(no_mangle)]
#[tactic(auto, using(rules::proofs::Theorem::same_meaning_of))]
pub extern "C" fn jitamoro_relax(
    r_type: u32,
    section: &mut [u8],
    offset: u64,
    flags: u8,
    output_kind: u8,
    executable: bool,
    address: u64,
    addend: i64,
) -> RelaxedAnswer
    ensures value { result ≡ relaxed_layout (relaxed_of (relaxing link_limit section.old (relocation r_type offset flags output_kind executable address addend))) }
    ensures section_after { section.new ≡ after_relaxing section.old (relaxing link_limit section.old (relocation r_type offset flags output_kind executable address addend)) }
    ensures same_meaning { SameMeaning section.old }
{
    let rel = Relocation {
        r_type,
        offset,
        flags,
        output_kind,
        executable,
        address,
        addend,
    };
    match plain::settle(section, rel) {
        Some(answer) => answer,
        None => RelaxedAnswer::from(relax::relax(section, rel)),
    }
}
