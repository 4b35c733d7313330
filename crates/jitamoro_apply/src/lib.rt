// Exported to C and Rust: rewriting by a kind, and its modifier. include/jitamoro.h says the same in C. The functions
// take any arguments; a slice is passed as a pointer and a length. In an answer a refusal is 0, or a number of document
// 01, and then every other field is 0.
// Kept: C passes a record's fields one by one and has a refusal as its number.
#![tactic(auto)]

ghost use Rattle.std.specs.Prelude.{◌≡◌};
ghost use Rattle.x86_64_kind.specs.Kinds.{skips, numbered};
ghost use Rattle.rules.specs.Record.{link_limit};
ghost use Rattle.rules.specs.Rewrite.{rewriting, after_rewriting};
ghost use Rattle.rules.specs.Meaning.{SameMeaning};
ghost use Rattle.x86_64_apply.specs.Apply.{applied_of};
ghost use Rattle.answers.specs.Layout.{moved_layout};

use answers::MovedAnswer;
use x86_64_kind::RelaxationKind;

// Rewrites by a kind, whatever was chosen. Refusals 1, 2, 5, 6; 5 too where there is no such kind.
#[unsafe(no_mangle)]
pub extern "C" fn jitamoro_apply(
    kind: u8,
    inst_offset: u8,
    section: &mut [u8],
    offset: u64,
    addend: i64,
) -> MovedAnswer
    ensures value { result ≡ moved_layout (applied_of (rewriting link_limit (numbered kind inst_offset) section.old offset addend)) }
    ensures section_after { section.new ≡ after_rewriting section.old (rewriting link_limit (numbered kind inst_offset) section.old offset addend) }
    ensures same_meaning { SameMeaning section.old }
{
    let relaxation_kind = RelaxationKind::from_number(kind, inst_offset);
    MovedAnswer::from(x86_64_apply::apply(relaxation_kind, section, offset, addend))
}

// Whether the relocation after one relaxed by a kind is skipped, by the kind's number; no where there is no such kind.
#[unsafe(no_mangle)]
pub extern "C" fn jitamoro_next_modifier(kind: u8) -> bool
    ensures { result ≡ skips (numbered kind 0) }
{
    let relaxation_kind = RelaxationKind::from_number(kind, 0);
    relaxation_kind.next_modifier().is_skip()
}
