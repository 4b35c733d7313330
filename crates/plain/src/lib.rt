// Relaxing a plain record, by its numbers alone: most records of an object have a type below 9, for which no byte is
// looked at. There is no branch in what is computed, since flags and types come in no order.
// Kept: flags and output kinds as numbers. By their enums, as `relax` has them, a record of libc.a takes 131 instructions and
// 1.5 of the Rust's time, where this takes 90 and 0.93 to 1.01 of it.
#![tactic(auto)]

ghost use Rattle.std.specs.Prelude.{◌≡◌, ◌≤◌, IfSome};
ghost use Rattle.std.specs.Bool.{then_some};
ghost use Rattle.rules.specs.Record.{link_limit};
ghost use Rattle.rules.specs.Choose.{choosing};
ghost use Rattle.rules.specs.Rewrite.{relaxing, after_relaxing};
ghost use Rattle.elf_x86_64_relaxation.specs.Choices.{choice_of};
ghost use Rattle.relax.specs.Answers.{relaxed_of};
ghost use Rattle.answers.specs.Layout.{choice_layout, relaxed_layout};
ghost use Rattle.plain.specs.Plain.{is_plain, mask_of, settled_of};

use answers::{ChoiceAnswer, RelaxedAnswer};
use rules::Relocation;
use std::hint::select_unpredictable;
use x86_64_kind::RelaxationKind;

// What relaxing answers for a plain record; no byte of its section changes.
#[tactic(auto, using(crate::proofs::Numbers::settled_by, crate::proofs::Numbers::kept_by, crate::proofs::Numbers::choice_by))]
pub fn settle(section_bytes: &[u8], rel: Relocation) -> Option<RelaxedAnswer>
    ensures value { result ≡ then_some (is_plain section_bytes.now rel) (relaxed_layout (relaxed_of (relaxing link_limit section_bytes.now rel))) }
    ensures no_change { IfSome result (λ _. section_bytes.now ≡ after_relaxing section_bytes.now (relaxing link_limit section_bytes.now rel)) }
    ensures choice { IfSome result (λ answer. answer.choice ≡ choice_layout (choice_of (choosing link_limit section_bytes.now rel))) }
{
    if section_bytes.len() <= rules::section_limit()
        && rel.offset <= section_bytes.len() as u64
        && rel.r_type < object::R_X86_64_GOTPCREL
        && rel.flags <= 15
        && rel.output_kind <= 5
    {
        Some(weighed(rel))
    } else {
        None
    }
}

// NoOp to 4 for type 2, to 2 for type 4, or none: each field by whether it is chosen.
fn weighed(rel: Relocation) -> RelaxedAnswer
    requires { rel.flags ≤ 15 }
    ensures { result ≡ settled_of rel }
{
    let chosen = (mask(rel.r_type, rel.executable) >> rel.flags) & 1 == 1;
    let is_pc32 = rel.r_type == object::R_X86_64_PC32;
    let mandatory = is_pc32 || matches!(rel.output_kind, 0 | 1);
    // Chosen, the kind, and mandatory or not.
    let head = u64::from_le_bytes([
        0,
        1,
        RelaxationKind::NoOp.number(),
        0,
        u8::from(mandatory),
        0,
        0,
        0,
    ]);
    let new_type = select_unpredictable(is_pc32, object::R_X86_64_PLT32, object::R_X86_64_PC32);
    RelaxedAnswer {
        choice: ChoiceAnswer {
            head: select_unpredictable(chosen, head, 0),
            new_type: select_unpredictable(chosen, new_type, 0),
        },
        offset: select_unpredictable(chosen, rel.offset, 0),
        addend: select_unpredictable(chosen, rel.addend, 0),
    }
}

// The flag numbers for which a kind is chosen, a bit each: for type 2 the ifuncs, for type 4, in an executable section,
// those that are not interposable and not ifuncs.
fn mask(r_type: u32, executable: bool) -> u32
    ensures { result ≡ mask_of r_type executable }
{
    let call = (r_type == object::R_X86_64_PLT32) & executable;
    let calls = select_unpredictable(call, 0xaa, 0);
    select_unpredictable(r_type == object::R_X86_64_PC32, 0xff00, calls)
}
