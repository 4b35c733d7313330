// elf_x86_64.rs, new_relaxation: GOT loads.
ghost use Rattle.std.specs.Prelude.{◌≡◌, eqb, cond};
ghost use Rattle.output_kind.specs.Output.{output_number};
ghost use Rattle.rules.specs.Choose.{is_fixed, rex_absolute, mov_load, rex_gotpcrelx, gotpcrelx, gotpcrel};
ghost use Rattle.elf_x86_64_relaxation.specs.Choices.{option_of};
ghost use Rattle.elf_x86_64_new_relaxation.specs.Asked.{record_of};

use crate::asked::Asked;
use crate::{REX_W, REX_W_R, in_range, relax_to};
use elf_x86_64_relaxation::Relaxation;
use x86_64_kind::RelaxationKind::*;

// 42, 43
#[tactic(auto, unfolding(rules::specs::Choose::rex_gotpcrelx, rules::specs::Choose::given, rules::specs::Choose::pick))]
pub fn rex_gotpcrelx(q: &Asked) -> Option<Relaxation>
    ensures { result ≡ option_of (rex_gotpcrelx q.now.section_bytes.now (record_of q.now) (cond (eqb q.now.r_type 42) 3 4)) }
{
    // REX prefixed instruction with W=1, R=0/1, X=0, B=0
    let [.., REX_W | REX_W_R, b1, _] = q.before() else {
        return None;
    };
    if !q.is_minus_4() || q.flags.is_interposable() {
        return None;
    }
    let mandatory = q.output_kind.is_static_executable();
    if q.is_absolute() || q.is_absolute_address() {
        let inst_offset = if q.r_type == object::R_X86_64_REX_GOTPCRELX {
            3
        } else {
            4
        };
        return rex_absolute(*b1, q.address, inst_offset, mandatory && q.is_absolute());
    }
    match b1 {
        // mov *x(%rip), reg
        0x8b => relax_to(MovIndirectToLea, object::R_X86_64_PC32, mandatory),
        _ => None,
    }
}

#[tactic(auto, unfolding(rules::specs::Choose::rex_absolute, rules::specs::Choose::given, rules::specs::Choose::pick))]
fn rex_absolute(b1: u8, address: u64, inst_offset: u8, mandatory: bool) -> Option<Relaxation>
    ensures { result ≡ option_of (rex_absolute b1 address inst_offset mandatory) }
{
    if !in_range(object::R_X86_64_32S, address) {
        return None;
    }
    let kind = match b1 {
        // mov *x(%rip), reg
        0x8b => RexMovIndirectToAbsolute(inst_offset),
        // sub *x(%rip), reg
        0x2b => RexSubIndirectToAbsolute(inst_offset),
        // cmp *x(%rip), reg
        0x3b => RexCmpIndirectToAbsolute(inst_offset),
        _ => return None,
    };
    relax_to(kind, object::R_X86_64_32S, mandatory)
}

// 41
#[tactic(auto, unfolding(rules::specs::Choose::gotpcrelx, rules::specs::Choose::branch_to, rules::specs::Choose::given, rules::specs::Choose::pick))]
pub fn gotpcrelx(q: &Asked) -> Option<Relaxation>
    ensures { result ≡ option_of (gotpcrelx q.now.section_bytes.now (record_of q.now)) }
{
    if !q.is_minus_4() || q.flags.is_interposable() {
        return None;
    }
    let mandatory = q.output_kind.is_static_executable();
    match q.before() {
        // mov *x(%rip), reg
        [.., 0x8b, _] => mov_load(q, mandatory),
        // call *x(%rip)
        [.., 0xff, 0x15] => relax_to(
            CallIndirectToRelative,
            object::R_X86_64_PC32,
            mandatory && q.output_kind.is_position_independent(),
        ),
        // jmp *x(%rip)
        [.., 0xff, 0x25] => relax_to(
            JmpIndirectToRelative,
            object::R_X86_64_PC32,
            mandatory && q.output_kind.is_position_independent(),
        ),
        _ => None,
    }
}

#[tactic(auto, unfolding(rules::specs::Choose::mov_load, rules::specs::Choose::given, rules::specs::Choose::pick))]
fn mov_load(q: &Asked, mandatory: bool) -> Option<Relaxation>
    ensures { result ≡ option_of (mov_load q.now.address (is_fixed q.now.flags.bits (output_number q.now.output_kind)) mandatory) }
{
    if !q.is_absolute() && !q.is_absolute_address() {
        return relax_to(MovIndirectToLea, object::R_X86_64_PC32, mandatory);
    }
    if !in_range(object::R_X86_64_32, q.address) {
        return None;
    }
    relax_to(MovIndirectToAbsolute, object::R_X86_64_32, mandatory)
}

// 9
#[tactic(auto, unfolding(rules::specs::Choose::gotpcrel, rules::specs::Choose::given))]
pub fn gotpcrel(q: &Asked) -> Option<Relaxation>
    ensures { result ≡ option_of (gotpcrel q.now.section_bytes.now (record_of q.now)) }
{
    let known = q.flags.has_link_time_address() || q.output_kind.has_fixed_load_address();
    if q.flags.is_interposable() || !known || !q.is_minus_4() {
        return None;
    }
    match q.before() {
        // mov *x(%rip), reg
        [.., REX_W | REX_W_R, 0x8b, _] => relax_to(MovIndirectToLea, object::R_X86_64_PC32, false),
        _ => None,
    }
}
