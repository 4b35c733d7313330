// What the callers of RelocationKindInfo::write_to_buffer do around it: a field's value and its place. Document 02, card 4.
#![tactic(auto)]

ghost use Rattle.std.specs.Prelude.{◌≡◌, ℕ, List, true, Ok};
ghost use Rattle.rules.specs.Record.{link_limit};
ghost use Rattle.rules.specs.Fill.{fills, field_value, filling, after_filling, FilledAt, loaded_at, Fills};
ghost use Rattle.rules.specs.Meaning.{SameMeaning};
ghost use Rattle.rules.specs.Records.{FillWorked};
ghost use Rattle.elf_fill.specs.Filling.{filling_of};

use refusal::Refusal;
use rules::Field;

// Fills a field of type 2, 10, 11 or 23 and answers true; other types that the lookup knows are none, false. Refusals 1,
// 2, 7, 16, 15; a refusal and none change nothing. Where it answers true, the section is document 01's Filled; where it could be,
// of the four types and within the limit, it answers true; and after relaxing a record the machine ends alike on the old
// instruction and on the new one.
#[tactic(auto, using(rules::proofs::Fill::exact, rules::proofs::Theorem::same_meaning_of, rules::proofs::Records::fill_worked), unfolding(rules::specs::Fill::filling, rules::specs::Fill::after_filling))]
pub fn fill(section_bytes: &mut [u8], field: Field) -> Result<bool, Refusal>
    ensures value { result ≡ filling_of (filling link_limit section_bytes.old field) }
    ensures section_bytes_after { section_bytes.new ≡ after_filling section_bytes.old (filling link_limit section_bytes.old field) }
    ensures leaves { (base : ℕ) → loaded_at field base → result ≡ Ok true → FilledAt field base section_bytes.old section_bytes.new }
    ensures fills { Fills link_limit section_bytes.old field }
    ensures same_meaning { (sec : List ℕ) → SameMeaning sec }
    ensures fill_worked { FillWorked }
{
    if rules::section_limit() < section_bytes.len() {
        return Err(Refusal::SectionTooLong);
    }
    let offset = field.offset as usize;
    if section_bytes.len() < offset {
        return Err(Refusal::OffsetAboveLength);
    }
    let info = x86_64_types::relocation_from_raw(field.r_type)?;
    if !is_filled(field.r_type) {
        return Ok(false);
    }
    info.write_to_buffer(relocated(field), &mut section_bytes[offset..])?;
    Ok(true)
}

fn is_filled(r_type: u32) -> bool
    ensures { result ≡ fills r_type }
{
    matches!(
        r_type,
        object::R_X86_64_PC32
            | object::R_X86_64_32
            | object::R_X86_64_32S
            | object::R_X86_64_TPOFF32
    )
}

// The value plus the addend, less the field's address for PC32. Both wrap.
fn relocated(field: Field) -> u64
    ensures { result ≡ field_value field }
{
    let value = field.value.wrapping_add(field.addend.cast_unsigned());
    if field.r_type == object::R_X86_64_PC32 {
        return value.wrapping_sub(field.address);
    }
    value
}
