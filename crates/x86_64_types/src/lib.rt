// x86_64.rs: the relocation types.
#![tactic(auto)]

ghost use Rattle.std.specs.Prelude.{◌≡◌};
ghost use Rattle.rules.specs.Types.{lookup, later_types, find};
ghost use Rattle.rules.specs.Psabi.{Conforms, LeftOutRows};
ghost use Rattle.rules.specs.Records.{TypesWorked};
ghost use Rattle.x86_64_types.specs.Types.{found_of, info_with};

use elf::{AllowedRange, RelocationKindInfo, RelocationSize};
use elf_kind::RelocationKind;
use refusal::Refusal;

// A field's size with the range of its values, as constants: those of `AllowedRange::from_byte_size` but for the two
// mixed ranges and that of no bytes.
#[derive(Clone, Copy, Debug, PartialEq, Eq, Hash)]
struct RelocSizeAndRange {
    size: RelocationSize,
    range: AllowedRange,
}

// Kept: the ranges' fields, since the checker refuses `AllowedRange::new` and `no_check` here: "a call in a constant's value
// is not supported yet".
macro_rules! size_and_range {
    ($byte_size:literal) => {
        size_and_range!(@ $byte_size, false, 0, 0)
    };
    ($byte_size:literal, $min:expr, $max:expr) => {
        size_and_range!(@ $byte_size, true, $min, $max)
    };
    (@ $byte_size:literal, $checked:literal, $min:expr, $max:expr) => {
        RelocSizeAndRange {
            size: RelocationSize {
                byte_size: $byte_size,
            },
            range: AllowedRange {
                checked: $checked,
                min: $min,
                max: $max,
            },
        }
    };
}

const RELOC_8_BYTE_UNSIGNED: RelocSizeAndRange = size_and_range!(8);

const RELOC_8_BYTE_SIGNED: RelocSizeAndRange = RELOC_8_BYTE_UNSIGNED;

const RELOC_4_BYTE_UNSIGNED: RelocSizeAndRange = size_and_range!(4, 0, 0x1_0000_0000);

const RELOC_4_BYTE_SIGNED: RelocSizeAndRange = size_and_range!(4, -0x8000_0000, 0x8000_0000);

const RELOC_2_BYTE_SIGNED: RelocSizeAndRange = size_and_range!(2, -0x8000, 0x8000);

const RELOC_1_BYTE_SIGNED: RelocSizeAndRange = size_and_range!(1, -0x80, 0x80);

const RELOC_2_BYTE_MIXED: RelocSizeAndRange = size_and_range!(2, -0x8000, 0x1_0000);

const RELOC_1_BYTE_MIXED: RelocSizeAndRange = size_and_range!(1, -0x80, 0x100);

const RELOC_NONE: RelocSizeAndRange = size_and_range!(0);

// The supplied x86-64 relocation as RelocationKindInfo, or refusal 7 if the r_type isn't recognised.
#[tactic(auto, using(rules::proofs::Psabi::conforms, rules::proofs::Psabi::left_out_rows, rules::proofs::Records::types_worked), unfolding(rules::specs::Types::lookup, rules::specs::Types::earlier_types, rules::specs::Range::byte_range))]
pub fn relocation_from_raw(r_type: u32) -> Result<RelocationKindInfo, Refusal>
    ensures value { result ≡ found_of (lookup r_type) }
    ensures conforms { Conforms r_type (lookup r_type) }
    ensures types_worked { TypesWorked × LeftOutRows }
{
    match r_type {
        object::R_X86_64_64 => row(RelocationKind::Absolute, RELOC_8_BYTE_UNSIGNED),
        object::R_X86_64_PC32 => row(RelocationKind::Relative, RELOC_4_BYTE_SIGNED),
        object::R_X86_64_PC64 => row(RelocationKind::Relative, RELOC_8_BYTE_SIGNED),
        object::R_X86_64_GOT32 => row(RelocationKind::GotRelGotBase, RELOC_4_BYTE_UNSIGNED),
        object::R_X86_64_GOT64 => row(RelocationKind::GotRelGotBase, RELOC_8_BYTE_UNSIGNED),
        object::R_X86_64_GOTOFF64 => row(RelocationKind::SymRelGotBase, RELOC_8_BYTE_SIGNED),
        object::R_X86_64_PLT32 => row(RelocationKind::PltRelative, RELOC_4_BYTE_SIGNED),
        object::R_X86_64_PLTOFF64 => row(RelocationKind::PltRelGotBase, RELOC_8_BYTE_SIGNED),
        object::R_X86_64_GOTPCREL => row(RelocationKind::GotRelative, RELOC_4_BYTE_SIGNED),
        // For now, we rely on these always referencing the symbol _GLOBAL_OFFSET_TABLE_, which makes
        // them normal relative relocations.
        object::R_X86_64_GOTPC64 => row(RelocationKind::Relative, RELOC_8_BYTE_SIGNED),
        object::R_X86_64_GOTPC32 => row(RelocationKind::Relative, RELOC_4_BYTE_SIGNED),
        object::R_X86_64_32 => row(RelocationKind::Absolute, RELOC_4_BYTE_UNSIGNED),
        object::R_X86_64_32S => row(RelocationKind::Absolute, RELOC_4_BYTE_SIGNED),
        object::R_X86_64_SIZE32 => row(RelocationKind::SymbolSize, RELOC_4_BYTE_UNSIGNED),
        object::R_X86_64_SIZE64 => row(RelocationKind::SymbolSize, RELOC_8_BYTE_UNSIGNED),
        object::R_X86_64_16 => row(RelocationKind::Absolute, RELOC_2_BYTE_MIXED),
        object::R_X86_64_PC16 => row(RelocationKind::Relative, RELOC_2_BYTE_SIGNED),
        object::R_X86_64_8 => row(RelocationKind::Absolute, RELOC_1_BYTE_MIXED),
        object::R_X86_64_PC8 => row(RelocationKind::Relative, RELOC_1_BYTE_SIGNED),
        object::R_X86_64_TLSGD => row(RelocationKind::TlsGd, RELOC_4_BYTE_SIGNED),
        object::R_X86_64_TLSLD => row(RelocationKind::TlsLd, RELOC_4_BYTE_SIGNED),
        object::R_X86_64_DTPOFF32 => row(RelocationKind::DtpOff, RELOC_4_BYTE_SIGNED),
        object::R_X86_64_DTPOFF64 => row(RelocationKind::DtpOff, RELOC_8_BYTE_SIGNED),
        object::R_X86_64_GOTTPOFF => row(RelocationKind::GotTpOff, RELOC_4_BYTE_SIGNED),
        object::R_X86_64_TPOFF32 => row(RelocationKind::TpOff, RELOC_4_BYTE_SIGNED),
        object::R_X86_64_GOTPC32_TLSDESC => row(RelocationKind::TlsDesc, RELOC_4_BYTE_SIGNED),
        object::R_X86_64_TLSDESC_CALL => row(RelocationKind::TlsDescCall, RELOC_NONE),
        object::R_X86_64_NONE => row(RelocationKind::None, RELOC_NONE),
        _ => later_relocation(r_type),
    }
}

// The types that the psABI added for relaxation: GOTPCRELX, and the forms with longer prefixes.
// Kept: apart from the types above, since no function has more than 40 lines here.
#[tactic(auto, unfolding(rules::specs::Types::later_types, rules::specs::Range::byte_range))]
fn later_relocation(r_type: u32) -> Result<RelocationKindInfo, Refusal>
    ensures { result ≡ found_of (find later_types r_type) }
{
    match r_type {
        object::R_X86_64_CODE_4_GOTTPOFF => row(RelocationKind::GotTpOff, RELOC_4_BYTE_SIGNED),
        object::R_X86_64_CODE_5_GOTTPOFF => row(RelocationKind::GotTpOff, RELOC_4_BYTE_SIGNED),
        object::R_X86_64_CODE_6_GOTTPOFF => row(RelocationKind::GotTpOff, RELOC_4_BYTE_SIGNED),
        object::R_X86_64_GOTPCRELX => row(RelocationKind::GotRelative, RELOC_4_BYTE_SIGNED),
        object::R_X86_64_REX_GOTPCRELX => row(RelocationKind::GotRelative, RELOC_4_BYTE_SIGNED),
        object::R_X86_64_CODE_4_GOTPCRELX => row(RelocationKind::GotRelative, RELOC_4_BYTE_SIGNED),
        object::R_X86_64_CODE_5_GOTPCRELX => row(RelocationKind::GotRelative, RELOC_4_BYTE_SIGNED),
        object::R_X86_64_CODE_6_GOTPCRELX => row(RelocationKind::GotRelative, RELOC_4_BYTE_SIGNED),
        object::R_X86_64_CODE_4_GOTPC32_TLSDESC => row(
            RelocationKind::TlsDesc,
            RELOC_4_BYTE_SIGNED,
        ),
        object::R_X86_64_CODE_5_GOTPC32_TLSDESC => row(
            RelocationKind::TlsDesc,
            RELOC_4_BYTE_SIGNED,
        ),
        object::R_X86_64_CODE_6_GOTPC32_TLSDESC => row(
            RelocationKind::TlsDesc,
            RELOC_4_BYTE_SIGNED,
        ),
        _ => Err(Refusal::UnknownType),
    }
}

// A row, with what is the same in all of them.
fn row(
    kind: RelocationKind,
    size_and_range: RelocSizeAndRange,
) -> Result<RelocationKindInfo, Refusal>
    ensures { result ≡ info_with kind size_and_range }
{
    Ok(RelocationKindInfo {
        kind,
        size: size_and_range.size,
        mask: false,
        range: size_and_range.range,
        alignment: 1,
        bias: false,
        thunkable: false,
        implicit_addend: false,
    })
}
