// Exported to C and Rust: choosing. include/jitamoro.h says the same in C. The function takes any arguments; a
// slice is passed as a pointer and a length. In an answer a refusal is 0, or a number of document 01, and then every other
// field is 0.
// Kept: C passes a record's fields one by one and has a refusal as its number.
#![tactic(auto)]

ghost use Rattle.std.specs.Prelude.{◌≡◌};
ghost use Rattle.rules.specs.Record.{link_limit, relocation};
ghost use Rattle.rules.specs.Choose.{choosing};
ghost use Rattle.elf_x86_64_relaxation.specs.Choices.{choice_of};
ghost use Rattle.answers.specs.Layout.{choice_layout};

use answers::ChoiceAnswer;
use rules::Relocation;

// Chooses a relaxation for one record. Refusals 1, 2, 3, 4.
#[unsafe(no_mangle)]
pub extern "C" fn jitamoro_new_relaxation(
    r_type: u32,
    section: &[u8],
    offset: u64,
    flags: u8,
    output_kind: u8,
    executable: bool,
    address: u64,
    addend: i64,
) -> ChoiceAnswer
    ensures { result ≡ choice_layout (choice_of (choosing link_limit section.now (relocation r_type offset flags output_kind executable address addend))) }
{
    let rel = Relocation {
        r_type,
        offset,
        flags,
        output_kind,
        executable,
        address,
        addend,
    };
    match plain::settle(section, rel) {
        Some(answer) => answer.choice,
        None => ChoiceAnswer::from(elf_x86_64_new_relaxation::new_relaxation(section, rel)),
    }
}
