// elf_x86_64.rs, new_relaxation: thread-local loads, sequences and descriptors.
ghost use Rattle.std.specs.Prelude.{◌≡◌, [], eqb, cond, true};
ghost use Rattle.rules.specs.Choose.{gottpoff, code6_gottpoff, tlsgd, tlsld, ld_call, tlsdesc, tlsdesc_call, desc_choice, given, pick};
ghost use Rattle.rules.specs.Record.{is_n, is_s};
ghost use Rattle.output_kind.specs.Output.{output_number};
ghost use Rattle.elf_x86_64_relaxation.specs.Choices.{option_of};
ghost use Rattle.elf_x86_64_new_relaxation.specs.Asked.{record_of};

use crate::asked::Asked;
use crate::fixed_strings::{part_from, starts_with};
use crate::{REX_W, REX_W_R, REX2_PREFIX, relax_to};
use elf_x86_64_relaxation::Relaxation;
use x86_64_kind::RelaxationKind::*;

// 22, 44
#[tactic(auto, unfolding(rules::specs::Choose::gottpoff, rules::specs::Choose::tpoff_load, rules::specs::Choose::given, rules::specs::Choose::pick))]
pub fn gottpoff(q: &Asked) -> Option<Relaxation>
    ensures { result ≡ option_of (gottpoff q.now.section_bytes.now (record_of q.now) (cond (eqb q.now.r_type 22) 3 4)) }
{
    if !q.output_kind.is_executable() || q.flags.is_interposable() {
        return None;
    }
    let inst_offset = if q.r_type == object::R_X86_64_GOTTPOFF {
        3
    } else {
        4
    };
    match q.before() {
        // mov *x(%rip), reg
        [.., REX_W | REX_W_R, 0x8b, _] => relax_to(
            RexMovIndirectToAbsolute(inst_offset),
            object::R_X86_64_TPOFF32,
            q.output_kind.is_static_executable(),
        ),
        // add *x(%rip), reg
        [.., REX_W | REX_W_R, 0x03, _] => relax_to(
            RexAddIndirectToAbsolute(inst_offset),
            object::R_X86_64_TPOFF32,
            false,
        ),
        _ => None,
    }
}

// 50
#[tactic(auto, unfolding(rules::specs::Choose::code6_gottpoff, rules::specs::Choose::given))]
pub fn code_6_gottpoff(q: &Asked) -> Option<Relaxation>
    ensures { result ≡ option_of (code6_gottpoff q.now.section_bytes.now (record_of q.now)) }
{
    if !q.output_kind.is_executable() || q.flags.is_interposable() {
        return None;
    }
    match q.before() {
        // add *x(%rip), reg1, reg2
        [.., 0x62, l5, l4, l3, 0x01 | 0x03, _]
            if *l5 & 0x47 == 0x44 && *l4 & 0x87 == 0x84 && *l3 & 0x14 != 0 => relax_to(
            RexAddIndirectToAbsolute(6),
            object::R_X86_64_TPOFF32,
            q.output_kind.is_static_executable(),
        ),
        _ => None,
    }
}

// 19
#[tactic(auto, unfolding(rules::specs::Choose::tlsgd, rules::specs::Choose::given, rules::specs::Choose::pick))]
pub fn tlsgd(q: &Asked) -> Option<Relaxation>
    ensures { result ≡ option_of (tlsgd q.now.section_bytes.now (record_of q.now)) }
{
    if !q.output_kind.is_executable() {
        return None;
    }
    let mandatory = q.output_kind.is_static_executable();
    let part = part_from(q.section_bytes, q.offset + 4);
    // data16 lea 0x0(%rip),%rdi; data16 data16 rex.W call {relative function offset},
    // or data16 rex.W call *__tls_get_addr@GOTPCREL(%rip)
    if q.stands_before(b"\x66\x48\x8d\x3d")
        && (starts_with(part, b"\x66\x66\x48\xe8") || starts_with(part, b"\x66\x48\xff\x15"))
    {
        if q.flags.is_interposable() {
            return relax_to(TlsGdToInitialExec, object::R_X86_64_GOTTPOFF, false);
        }
        return relax_to(TlsGdToLocalExec, object::R_X86_64_TPOFF32, mandatory);
    }
    // lea 0x0(%rip),%rdi; movabs $X,%rax; add %rbx,%rax; call *%rax
    if q.stands_before(b"\x48\x8d\x3d")
        && starts_with(part, b"\x48\xb8")
        && starts_with(part_from(part, 10), b"\x48\x01\xd8\xff\xd0")
        && !q.flags.is_interposable()
    {
        return relax_to(TlsGdToLocalExecLarge, object::R_X86_64_TPOFF32, mandatory);
    }
    None
}

// 20
#[tactic(auto, unfolding(rules::specs::Choose::tlsld, rules::specs::Choose::given))]
pub fn tlsld(q: &Asked) -> Option<Relaxation>
    ensures { result ≡ option_of (tlsld q.now.section_bytes.now (record_of q.now)) }
{
    // lea 0x0(%rip),%rdi
    if !q.output_kind.is_executable() || !q.stands_before(b"\x48\x8d\x3d") {
        return None;
    }
    let mandatory = q.output_kind.is_static_executable();
    ld_call(part_from(q.section_bytes, q.offset + 4), mandatory)
}

// What follows the lea of a local dynamic sequence.
#[tactic(auto, unfolding(rules::specs::Choose::ld_call, rules::specs::Choose::given, rules::specs::Choose::pick))]
fn ld_call(part: &[u8], mandatory: bool) -> Option<Relaxation>
    ensures { result ≡ option_of (ld_call part.now mandatory) }
{
    match part.get(..2) {
        // PC-relative direct call
        Some([0xe8, _]) => relax_to(TlsLdToLocalExec, object::R_X86_64_NONE, mandatory),
        Some(b"\x48\xb8") => relax_to(TlsLdToLocalExec64, object::R_X86_64_NONE, false),
        // PC-relative indirect call
        Some(b"\xff\x15") => relax_to(TlsLdToLocalExecNoPlt, object::R_X86_64_NONE, mandatory),
        _ => None,
    }
}

// 34, 45
#[tactic(auto, unfolding(rules::specs::Choose::tlsdesc, rules::specs::Choose::desc_choice, rules::specs::Choose::is_rex2_w, rules::specs::Choose::given, rules::specs::Choose::pick))]
pub fn tlsdesc(q: &Asked) -> Option<Relaxation>
    ensures { result ≡ option_of (pick (eqb q.now.r_type 34) (tlsdesc q.now.section_bytes.now (record_of q.now) 3) (given (eqb q.now.r_type 45) (tlsdesc q.now.section_bytes.now (record_of q.now) 4))) }
{
    if !q.output_kind.is_executable() {
        return None;
    }
    // Require a RIP-relative LEA with a REX.W or REX2.W prefix.
    match (q.r_type, q.before()) {
        (object::R_X86_64_GOTPC32_TLSDESC, [.., REX_W | REX_W_R, 0x8d, modrm])
            if *modrm & 0xc7 == 0x05 => desc_to_exec(q, 3),
        (
            object::R_X86_64_CODE_4_GOTPC32_TLSDESC,
            [.., REX2_PREFIX, 0x08 | 0x0c | 0x48 | 0x4c, 0x8d, modrm],
        ) if *modrm & 0xc7 == 0x05 => desc_to_exec(q, 4),
        _ => None,
    }
}

// What takes the place of the lea of a descriptor.
#[tactic(auto, unfolding(rules::specs::Choose::desc_choice, rules::specs::Choose::given, rules::specs::Choose::pick))]
fn desc_to_exec(q: &Asked, inst_offset: u8) -> Option<Relaxation>
    ensures { result ≡ option_of (desc_choice true inst_offset (is_n q.now.flags.bits) (is_s (output_number q.now.output_kind))) }
{
    let mandatory = q.output_kind.is_static_executable();
    if q.flags.is_interposable() {
        return relax_to(TlsDescToInitialExec, object::R_X86_64_GOTTPOFF, mandatory);
    }
    relax_to(
        TlsDescToLocalExec(inst_offset),
        object::R_X86_64_TPOFF32,
        mandatory,
    )
}

// 35. The condition (executable output) must be that of 34 and 45.
#[tactic(auto, unfolding(rules::specs::Choose::given))]
pub fn tlsdesc_call(q: &Asked) -> Option<Relaxation>
    ensures { result ≡ option_of (tlsdesc_call [] (record_of q.now)) }
{
    if !q.output_kind.is_executable() {
        return None;
    }
    let mandatory = q.output_kind.is_static_executable();
    relax_to(SkipTlsDescCall, object::R_X86_64_NONE, mandatory)
}
