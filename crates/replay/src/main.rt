// Replays a list of the Rust's answers against the port, and prints how many of each function
// agree. tests/differential (`replay_list`) made the list, from the Rust alone: a record of 40
// bytes a line, in hexadecimal. Its first byte names the function:
//   1 output kind: number, is_executable, is_static_executable, is_position_independent,
//     has_fixed_load_address
//   2 value flags: number, is_dynamic, is_ifunc, has_link_time_address, is_absolute,
//     is_interposable
//   3 relocation_from_raw: type (4 bytes), 0 or 7, kind, size, min (8), max (8), alignment, mask,
//     bias, thunkable, implicit_addend
//   4 x86_64_r_type: kind, type (4)
//   5 write_plt_entry: length lent, GOT (8), PLT (8), 0 or the refusal, 16 bytes of a buffer
//   6 fill_section_padding: executable, length lent, 16 bytes of a buffer
//   7 AllowedRange::contains: type (4), value (8), 0 or 1. For i64::MAX in an unchecked range it is 1, and 9 writes it: the
//     Rust refuses both
//   8 AllowedRange::from_byte_size: bytes, 0 signed or 1 unsigned, min (8), max (8)
//   9 RelocationKindInfo::write_to_buffer: type (4), value (8), length lent, 255 (written), 15 (range) or 16 (no room), ten
//     bytes of a buffer. Where both hold it is 16; the Rust itself tests the range first
//  10 fill: type, length lent, offset, address (8), value (8), addend (8), 0 (none), 255 (filled) or the refusal, ten bytes
//     of a buffer
// Numbers stand low byte first; buffers hold A5 before.
#![tactic(auto)]

use elf::{AllowedRange, ByteWidth, DynamicRelocationKind, Sign};
use hex_lines::{Count, Line};
use output_kind::OutputKind;
use refusal::Refusal;
use rules::Field;
use value_flags::ValueFlags;
use x86_64_types::relocation_from_raw;

// The function that a record is of, in the order of their numbers.
#[derive(Clone, Copy)]
enum Function {
    OutputKind,
    ValueFlags,
    RelocationFromRaw,
    X86RType,
    WritePltEntry,
    FillSectionPadding,
    Contains,
    FromByteSize,
    WriteToBuffer,
    Fill,
}

impl Function {
    fn from_number(number: u8) -> Option<Function> {
        match number {
            1 => Some(Function::OutputKind),
            2 => Some(Function::ValueFlags),
            3 => Some(Function::RelocationFromRaw),
            4 => Some(Function::X86RType),
            5 => Some(Function::WritePltEntry),
            6 => Some(Function::FillSectionPadding),
            7 => Some(Function::Contains),
            8 => Some(Function::FromByteSize),
            9 => Some(Function::WriteToBuffer),
            10 => Some(Function::Fill),
            _ => None,
        }
    }

    // Whether the port answers as a record says.
    fn agrees(self, line: Line) -> bool {
        match self {
            Function::OutputKind => output_kind_agrees(line),
            Function::ValueFlags => value_flags_agree(line),
            Function::RelocationFromRaw => relocation_agrees(line),
            Function::X86RType => dynamic_type_agrees(line),
            Function::WritePltEntry => plt_agrees(line),
            Function::FillSectionPadding => padding_agrees(line),
            Function::Contains => contains_agrees(line),
            Function::FromByteSize => byte_size_agrees(line),
            Function::WriteToBuffer => write_agrees(line),
            Function::Fill => fill_agrees(line),
        }
    }
}

fn output_kind_agrees(line: Line) -> bool {
    OutputKind::try_from(line.byte(1)).is_ok_and(|kind| {
        let answers = [
            kind.is_executable(),
            kind.is_static_executable(),
            kind.is_position_independent(),
            kind.has_fixed_load_address(),
        ];
        answers.map(u8::from) == line.bytes_at(2)
    })
}

fn value_flags_agree(line: Line) -> bool {
    ValueFlags::try_from(line.byte(1)).is_ok_and(|flags| {
        let answers = [
            flags.is_dynamic(),
            flags.is_ifunc(),
            flags.has_link_time_address(),
            flags.is_absolute(),
            flags.is_interposable(),
        ];
        answers.map(u8::from) == line.bytes_at(2)
    })
}

// The Rust's unchecked range is i64::MIN to i64::MAX.
fn range_agrees(range: AllowedRange, min: u64, max: u64) -> bool {
    let ends = if range.checked {
        (range.min, range.max)
    } else {
        (i64::MIN, i64::MAX)
    };
    ends == (min.cast_signed(), max.cast_signed())
}

fn relocation_agrees(line: Line) -> bool {
    match relocation_from_raw(line.u32_at(1)) {
        Ok(info) => {
            let head = [0, info.kind as u8, info.size.byte_size];
            let tail = [
                info.alignment,
                u8::from(info.mask),
                u8::from(info.bias),
                u8::from(info.thunkable),
                u8::from(info.implicit_addend),
            ];
            (head == line.bytes_at(5))
                & range_agrees(info.range, line.u64_at(8), line.u64_at(16))
                & (tail == line.bytes_at(24))
        }
        Err(refusal) => refusal.number() == line.byte(5),
    }
}

// A number that names no kind has type 0 here.
fn dynamic_type_agrees(line: Line) -> bool {
    let kind = DynamicRelocationKind::from_number(u32::from(line.byte(1)));
    kind.map_or(0, |kind| kind.x86_64_r_type()) == line.u32_at(2)
}

// Whether a call that is lent the first `n` bytes of a buffer agrees, and the buffer begins with these bytes then.
fn buffer_agrees<F: FnOnce(&mut [u8]) -> bool>(n: u8, first: &[u8], call: F) -> bool
    requires { F.IsAlwaysCallable call }
{
    let mut buffer = [0xa5; 64];
    let agrees = buffer.get_mut(..usize::from(n)).is_some_and(call);
    agrees & buffer.starts_with(first)
}

fn plt_agrees(line: Line) -> bool {
    buffer_agrees(line.byte(1), &line.bytes_at::<16>(19), |buffer| {
        let written = elf_x86_64_plt::write_plt_entry(buffer, line.u64_at(2), line.u64_at(10));
        written.map_or_else(Refusal::number, |_| 0) == line.byte(18)
    })
}

fn padding_agrees(line: Line) -> bool {
    buffer_agrees(line.byte(2), &line.bytes_at::<16>(3), |buffer| {
        elf_x86_64_plt::fill_section_padding(buffer, line.byte(1) == 1);
        true
    })
}

fn contains_agrees(line: Line) -> bool {
    relocation_from_raw(line.u32_at(1)).is_ok_and(|info| {
        u8::from(info.range.contains(line.u64_at(5).cast_signed())) == line.byte(13)
    })
}

fn byte_size_agrees(line: Line) -> bool {
    let sign = match line.byte(2) {
        0 => Sign::Signed,
        _ => Sign::Unsigned,
    };
    let width = match line.byte(1) {
        1 => ByteWidth::One,
        2 => ByteWidth::Two,
        4 => ByteWidth::Four,
        _ => ByteWidth::Eight,
    };
    let range = AllowedRange::from_byte_size(width, sign);
    range_agrees(range, line.u64_at(3), line.u64_at(11))
}

// 0 where nothing was filled, 255 where the field was, or the refusal.
fn answer_of(filled: Result<bool, Refusal>) -> u8 {
    match filled {
        Ok(false) => 0,
        Ok(true) => 255,
        Err(refusal) => refusal.number(),
    }
}

fn write_agrees(line: Line) -> bool {
    relocation_from_raw(line.u32_at(1)).is_ok_and(|info| {
        buffer_agrees(line.byte(13), &line.bytes_at::<10>(15), |buffer| {
            let written = info.write_to_buffer(line.u64_at(5), buffer);
            answer_of(written.map(|_| true)) == line.byte(14)
        })
    })
}

fn field_of(line: Line) -> Field {
    Field {
        r_type: u32::from(line.byte(1)),
        offset: u64::from(line.byte(3)),
        address: line.u64_at(4),
        value: line.u64_at(12),
        addend: line.u64_at(20).cast_signed(),
    }
}

fn fill_agrees(line: Line) -> bool {
    buffer_agrees(line.byte(2), &line.bytes_at::<10>(29), |buffer| {
        answer_of(elf_fill::fill(buffer, field_of(line))) == line.byte(28)
    })
}

// Kept: alike in the four programs that replay; replay_relax says why it is no plainer as one.
fn main() {
    // How many records of each function agree, and how many of any function don't.
    let mut agree = [
        "output kinds",
        "value flags",
        "relocation types",
        "dynamic types",
        "PLT entries",
        "paddings",
        "ranges",
        "ranges of fields",
        "values written",
        "fields filled",
    ]
    .map(Count::new);
    let mut differ = Count::new("differ");
    hex_lines::for_each_line::<81, _>(|line| {
        let function = Function::from_number(line.byte(0));
        let agrees = function.is_some_and(|function| function.agrees(line));
        if let Some(function) = function {
            agree[function as usize].more(agrees);
        }
        differ.more(!agrees);
    });
    for count in agree {
        count.print();
    }
    differ.print();
}
