// elf_x86_64.rs: new_relaxation.
#![tactic(auto)]

ghost use Rattle.std.specs.Prelude.{◌≡◌, true, [], ◌≤◌, length};
ghost use Rattle.rules.specs.Record.{link_limit};
ghost use Rattle.rules.specs.Range.{signed64};
ghost use Rattle.rules.specs.Choose.{in_range, no_op, by_type, choose, choosing};
ghost use Rattle.elf_x86_64_relaxation.specs.Choices.{relaxation, option_of, choice_of};
ghost use Rattle.elf_x86_64_new_relaxation.specs.Asked.{record_of};

use crate::asked::Asked;
use elf_x86_64_relaxation::Relaxation;
use output_kind::OutputKind;
use refusal::Refusal;
use rules::Relocation;
use value_flags::ValueFlags;
use x86_64_kind::RelaxationKind;

mod asked;
mod fixed_strings;
mod got;
mod tls;

// 64-bit instruction REX encoding.
const REX_W: u8 = 0x48;

// 64-bit instruction REX encoding (extended registers used).
const REX_W_R: u8 = 0x4c;

const REX2_PREFIX: u8 = 0xd5;

// Chooses a relaxation for one record. Refusals 1 to 4.
#[tactic(auto, unfolding(rules::specs::Choose::choosing, rules::specs::Record::flag_number, rules::specs::Record::output_kind_of))]
pub fn new_relaxation(section_bytes: &[u8], rel: Relocation) -> Result<Option<Relaxation>, Refusal>
    ensures { result ≡ choice_of (choosing link_limit section_bytes.now rel) }
{
    if rules::section_limit() < section_bytes.len() {
        return Err(Refusal::SectionTooLong);
    }
    let offset = rel.offset as usize;
    if section_bytes.len() < offset {
        return Err(Refusal::OffsetAboveLength);
    }
    let q = Asked {
        section_bytes,
        r_type: rel.r_type,
        offset,
        flags: ValueFlags::try_from(rel.flags)?,
        output_kind: OutputKind::try_from(rel.output_kind)?,
        executable: rel.executable,
        address: rel.address,
        addend: rel.addend,
    };
    Ok(choose(&q))
}

#[tactic(auto, unfolding(rules::specs::Choose::choose, rules::specs::Choose::given, rules::specs::Choose::pick))]
fn choose(q: &Asked) -> Option<Relaxation>
    ensures { result ≡ option_of (choose q.now.section_bytes.now (record_of q.now)) }
{
    // IFuncs cannot be referenced directly, they always go via the GOT: PC32 becomes PLT32, and
    // nothing else is relaxed. This comes before the test that the section is executable.
    if q.flags.is_ifunc() {
        return match q.r_type {
            object::R_X86_64_PC32 => relax_to(RelaxationKind::NoOp, object::R_X86_64_PLT32, true),
            _ => None,
        };
    }
    // All relaxations below only apply to executable code.
    if !q.executable {
        return None;
    }
    by_type(q)
}

// The types of executable sections, then their opcode bytes.
#[tactic(auto, unfolding(rules::specs::Choose::given, rules::specs::Choose::pick))]
fn by_type(q: &Asked) -> Option<Relaxation>
    ensures { result ≡ option_of (by_type q.now.section_bytes.now (record_of q.now) q.now.r_type) }
{
    match q.r_type {
        object::R_X86_64_REX_GOTPCRELX..=object::R_X86_64_CODE_4_GOTPCRELX => {
            got::rex_gotpcrelx(q)
        }
        object::R_X86_64_GOTPCRELX => got::gotpcrelx(q),
        object::R_X86_64_GOTPCREL => got::gotpcrel(q),
        object::R_X86_64_GOTTPOFF | object::R_X86_64_CODE_4_GOTTPOFF => tls::gottpoff(q),
        object::R_X86_64_CODE_6_GOTTPOFF => tls::code_6_gottpoff(q),
        object::R_X86_64_PLT32 => no_op(q, object::R_X86_64_PC32),
        object::R_X86_64_PLTOFF64 => no_op(q, object::R_X86_64_GOTOFF64),
        object::R_X86_64_TLSGD => tls::tlsgd(q),
        object::R_X86_64_TLSLD => tls::tlsld(q),
        object::R_X86_64_GOTPC32_TLSDESC | object::R_X86_64_CODE_4_GOTPC32_TLSDESC => {
            tls::tlsdesc(q)
        }
        object::R_X86_64_TLSDESC_CALL => tls::tlsdesc_call(q),
        _ => None,
    }
}

// 4, 31
#[tactic(auto, unfolding(rules::specs::Choose::given))]
fn no_op(q: &Asked, new_type: u32) -> Option<Relaxation>
    ensures { result ≡ option_of (no_op [] (record_of q.now) new_type) }
{
    if q.flags.is_interposable() {
        return None;
    }
    let mandatory = q.output_kind.is_static_executable();
    relax_to(RelaxationKind::NoOp, new_type, mandatory)
}

fn relax_to(kind: RelaxationKind, new_type: u32, mandatory: bool) -> Option<Relaxation>
    ensures { result ≡ Some (relaxation kind new_type mandatory) }
{
    Some(Relaxation {
        kind,
        new_type,
        mandatory,
    })
}

// Whether an address, read as signed, lies in the range of a type.
#[tactic(auto, unfolding(rules::specs::Choose::in_range, rules::specs::Range::signed64))]
fn in_range(new_type: u32, address: u64) -> bool
    ensures { result ≡ in_range new_type (signed64 address) }
{
    let value = address.cast_signed();
    x86_64_types::relocation_from_raw(new_type).is_ok_and(|info| info.range.contains(value))
}
