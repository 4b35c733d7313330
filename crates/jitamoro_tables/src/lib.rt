// Exported to C and Rust: the tables, PLT entries and padding. In an answer `refusal` is 0, or a refusal's number of
// document 01, and then every other field is 0.
// Kept: C passes kinds and ranges as numbers, and has a refusal as its number.
#![tactic(auto)]

ghost use Rattle.std.specs.Prelude.{◌≡◌, cond, length};
ghost use Rattle.rules.specs.Answer.{refusal_of};
ghost use Rattle.rules.specs.Record.{output_kind_of, flag_number};
ghost use Rattle.rules.specs.Range.{contains, within, unchecked};
ghost use Rattle.rules.specs.Types.{lookup, dynamic_type};
ghost use Rattle.rules.specs.Plt.{plt_answer, plt_bytes, padding};
ghost use Rattle.output_kind.specs.Output.{output_answer};
ghost use Rattle.value_flags.specs.Flags.{flags_answer};
ghost use Rattle.jitamoro_tables.specs.Layout.{output_layout, flags_layout, relocation_layout, info_layout};

use elf::{AllowedRange, DynamicRelocationKind, RelocationKindInfo};
use output_kind::OutputKind;
use refusal::Refusal;
use value_flags::ValueFlags;

#[repr(C)]
#[derive(Clone, Copy, Debug, Default, PartialEq, Eq, Hash)]
pub struct OutputKindAnswer {
    pub refusal: u8,
    pub is_executable: bool,
    pub is_static_executable: bool,
    pub is_position_independent: bool,
    pub has_fixed_load_address: bool,
}

// What the rules ask of an output kind. Refusal 4.
#[unsafe(no_mangle)]
pub extern "C" fn jitamoro_output_kind(number: u8) -> OutputKindAnswer
    ensures { result ≡ output_layout (output_kind_of number) }
{
    OutputKindAnswer::from(OutputKind::try_from(number))
}

impl From<Result<OutputKind, Refusal>> for OutputKindAnswer {
    ghost from_gives = { λ kind answer. answer ≡ output_layout (output_answer kind) };

    fn from(kind: Result<OutputKind, Refusal>) -> OutputKindAnswer {
        match kind {
            Ok(kind) => OutputKindAnswer {
                refusal: 0,
                is_executable: kind.is_executable(),
                is_static_executable: kind.is_static_executable(),
                is_position_independent: kind.is_position_independent(),
                has_fixed_load_address: kind.has_fixed_load_address(),
            },
            Err(refusal) => OutputKindAnswer {
                refusal: refusal.number(),
                ..OutputKindAnswer::default()
            },
        }
    }
}

#[repr(C)]
#[derive(Clone, Copy, Debug, Default, PartialEq, Eq, Hash)]
pub struct ValueFlagsAnswer {
    pub refusal: u8,
    pub is_dynamic: bool,
    pub is_ifunc: bool,
    pub has_link_time_address: bool,
    pub is_absolute: bool,
    pub is_interposable: bool,
}

// What the rules ask of a flag number. Refusal 3.
#[unsafe(no_mangle)]
pub extern "C" fn jitamoro_value_flags(number: u8) -> ValueFlagsAnswer
    ensures { result ≡ flags_layout (flag_number number) }
{
    ValueFlagsAnswer::from(ValueFlags::try_from(number))
}

impl From<Result<ValueFlags, Refusal>> for ValueFlagsAnswer {
    ghost from_gives = { λ flags answer. answer ≡ flags_layout (flags_answer flags) };

    fn from(flags: Result<ValueFlags, Refusal>) -> ValueFlagsAnswer {
        match flags {
            Ok(flags) => ValueFlagsAnswer {
                refusal: 0,
                is_dynamic: flags.is_dynamic(),
                is_ifunc: flags.is_ifunc(),
                has_link_time_address: flags.has_link_time_address(),
                is_absolute: flags.is_absolute(),
                is_interposable: flags.is_interposable(),
            },
            Err(refusal) => ValueFlagsAnswer {
                refusal: refusal.number(),
                ..ValueFlagsAnswer::default()
            },
        }
    }
}

// `kind` is the kind's place among the sixteen of RelocationKind. Where `checked` is false every
// value is allowed, and `min` and `max` are 0.
#[repr(C)]
#[derive(Clone, Copy, Debug, Default, PartialEq, Eq, Hash)]
pub struct RelocationAnswer {
    pub refusal: u8,
    pub kind: u8,
    pub size: u8,
    pub checked: bool,
    pub mask: bool,
    pub bias: bool,
    pub thunkable: bool,
    pub implicit_addend: bool,
    pub alignment: u8,
    pub min: i64,
    pub max: i64,
}

// The row of a relocation type. Refusal 7.
#[unsafe(no_mangle)]
pub extern "C" fn jitamoro_relocation_from_raw(r_type: u32) -> RelocationAnswer
    ensures { result ≡ relocation_layout (lookup r_type) }
{
    match x86_64_types::relocation_from_raw(r_type) {
        Ok(info) => RelocationAnswer::from(info),
        Err(refusal) => RelocationAnswer {
            refusal: refusal.number(),
            ..RelocationAnswer::default()
        },
    }
}

// Kept: from a row, since from the whole Result the lookup is a table of jumps, and takes 10.6 ns on random types where
// this form takes 5.7.
impl From<RelocationKindInfo> for RelocationAnswer {
    ghost from_gives = { λ info answer. answer ≡ info_layout info };

    fn from(info: RelocationKindInfo) -> RelocationAnswer {
        RelocationAnswer {
            refusal: 0,
            kind: info.kind.number(),
            size: info.size.byte_size,
            checked: info.range.checked,
            mask: info.mask,
            alignment: info.alignment,
            bias: info.bias,
            thunkable: info.thunkable,
            implicit_addend: info.implicit_addend,
            min: info.range.min,
            max: info.range.max,
        }
    }
}

// Whether min ≤ value < max, or any value where the range isn't checked.
#[unsafe(no_mangle)]
pub extern "C" fn jitamoro_allowed_range_contains(
    checked: bool,
    min: i64,
    max: i64,
    value: i64,
) -> bool
    ensures { result ≡ contains (cond checked (within min max) unchecked) value }
{
    AllowedRange { checked, min, max }.contains(value)
}

// The dynamic relocation type of a kind, by its place among the ten of DynamicRelocationKind, or 0
// (R_X86_64_NONE) where there is no such kind.
#[unsafe(no_mangle)]
pub extern "C" fn jitamoro_x86_64_r_type(kind: u32) -> u32
    ensures { result ≡ dynamic_type kind }
{
    DynamicRelocationKind::from_number(kind).map_or(0, |kind| kind.x86_64_r_type())
}

// Writes a PLT entry of 16 bytes: 0, or refusal 8 (nothing changed) or 9 (the blank template).
#[unsafe(no_mangle)]
pub extern "C" fn jitamoro_write_plt_entry(
    plt_entry: &mut [u8],
    got_address: u64,
    plt_address: u64,
) -> u8
    ensures value { result ≡ refusal_of (plt_answer plt_entry.old got_address plt_address) }
    ensures plt_entry_after { plt_entry.new ≡ plt_bytes plt_entry.old got_address plt_address }
{
    elf_x86_64_plt::write_plt_entry(plt_entry, got_address, plt_address).map_or_else(
        Refusal::number,
        |()| 0,
    )
}

// Pads with CC in executable sections, 00 elsewhere.
#[unsafe(no_mangle)]
pub extern "C" fn jitamoro_fill_section_padding(buf: &mut [u8], executable: bool)
    ensures { buf.new ≡ padding executable (length buf.old) }
{
    elf_x86_64_plt::fill_section_padding(buf, executable);
}
