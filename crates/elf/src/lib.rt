// elf.rs, as far as x86-64 uses them.
#![tactic(auto)]

ghost use Rattle.std.specs.Prelude.{◌≡◌, ℕ, cond, length, slice_get, Ok, Err};
ghost use Rattle.refusal.specs.declared.Refusal.TheVariants.{ValueOutOfRange};
ghost use Rattle.rules.specs.Range.{unchecked, within, contains, byte_range, signed64, Keeps, low_first, LowPart};
ghost use Rattle.rules.specs.Types.{dynamic_type};
ghost use Rattle.rules.specs.Fill.{written, after_filling};
ghost use Rattle.rules.specs.Psabi.{DynamicNames};
ghost use Rattle.elf.specs.Elf.{range_of, range_from, width_of, sign_of, written_of, dynamic_kinds, dynamic_number};

use elf_kind::RelocationKind;
use refusal::Refusal;

#[derive(Clone, Copy, Debug, PartialEq, Eq, Hash)]
pub enum Sign {
    Signed,
    Unsigned,
}

#[derive(Clone, Copy, Debug, PartialEq, Eq, Hash)]
pub enum DynamicRelocationKind {
    Copy,
    Irelative,
    DtpMod,
    DtpOff,
    TlsDesc,
    TpOff,
    Relative,
    Absolute,
    GotEntry,
    JumpSlot,
}

impl DynamicRelocationKind {
    // The kind at a place among the ten, from 0.
    // Kept: no TryFrom, since no document has a refusal for other numbers.
    pub fn from_number(number: u32) -> Option<DynamicRelocationKind>
        ensures { result ≡ slice_get dynamic_kinds number }
    {
        match number {
            0 => Some(DynamicRelocationKind::Copy),
            1 => Some(DynamicRelocationKind::Irelative),
            2 => Some(DynamicRelocationKind::DtpMod),
            3 => Some(DynamicRelocationKind::DtpOff),
            4 => Some(DynamicRelocationKind::TlsDesc),
            5 => Some(DynamicRelocationKind::TpOff),
            6 => Some(DynamicRelocationKind::Relative),
            7 => Some(DynamicRelocationKind::Absolute),
            8 => Some(DynamicRelocationKind::GotEntry),
            9 => Some(DynamicRelocationKind::JumpSlot),
            _ => None,
        }
    }

    #[tactic(auto, using(rules::proofs::Psabi::dynamic_names))]
    pub fn x86_64_r_type(self) -> u32
        ensures value { result ≡ dynamic_type (dynamic_number self) }
        ensures dynamic_names { DynamicNames }
    {
        match self {
            DynamicRelocationKind::Copy => object::R_X86_64_COPY,
            DynamicRelocationKind::Irelative => object::R_X86_64_IRELATIVE,
            DynamicRelocationKind::DtpMod => object::R_X86_64_DTPMOD64,
            DynamicRelocationKind::DtpOff => object::R_X86_64_DTPOFF64,
            DynamicRelocationKind::TpOff => object::R_X86_64_TPOFF64,
            DynamicRelocationKind::Relative => object::R_X86_64_RELATIVE,
            DynamicRelocationKind::Absolute => object::R_X86_64_64,
            DynamicRelocationKind::GotEntry => object::R_X86_64_GLOB_DAT,
            DynamicRelocationKind::TlsDesc => object::R_X86_64_TLSDESC,
            DynamicRelocationKind::JumpSlot => object::R_X86_64_JUMP_SLOT,
        }
    }
}

// The Rust's `RelocationSize::ByteSize(n)`, the only form that x86-64 uses.
#[derive(Clone, Copy, Debug, PartialEq, Eq, Hash)]
pub struct RelocationSize {
    pub byte_size: u8,
}

// Allowed range (half-open) of a computed value of a relocation. Where it isn't checked, every
// value is allowed (the Rust's `no_check` leaves out i64::MAX, docs/DIFFERENCES.md), and the ends
// are 0.
// Kept: as Option of the ends the lookup is a table of jumps, and takes twice the time of this form (docs/DECISIONS.md,
// 'Forms').
#[derive(Clone, Copy, Debug, PartialEq, Eq, Hash)]
pub struct AllowedRange {
    pub checked: bool,
    pub min: i64,
    pub max: i64,
}

// The widths of a field that `from_byte_size` is used at.
#[derive(Clone, Copy, Debug, PartialEq, Eq, Hash)]
pub enum ByteWidth {
    One,
    Two,
    Four,
    Eight,
}

impl AllowedRange {
    pub fn new(min: i64, max: i64) -> AllowedRange
        ensures { result ≡ range_from (within min max) }
    {
        AllowedRange {
            checked: true,
            min,
            max,
        }
    }

    pub fn no_check() -> AllowedRange
        ensures { result ≡ range_from unchecked }
    {
        AllowedRange {
            checked: false,
            min: 0,
            max: 0,
        }
    }

    // The range of a field of n bytes: the values that its bytes, read back, give again.
    #[tactic(auto, using(crate::proofs::Back::field_keeps), unfolding(rules::specs::Range::byte_range))]
    pub fn from_byte_size(n_bytes: ByteWidth, sign: Sign) -> AllowedRange
        ensures value { result ≡ range_from (byte_range (width_of n_bytes) (sign_of sign)) }
        ensures keeps { Keeps (width_of n_bytes) (sign_of sign) (range_of result) }
    {
        match sign {
            Sign::Unsigned => match n_bytes {
                ByteWidth::One => AllowedRange::new(0, 0x100),
                ByteWidth::Two => AllowedRange::new(0, 0x1_0000),
                ByteWidth::Four => AllowedRange::new(0, 0x1_0000_0000),
                ByteWidth::Eight => AllowedRange::no_check(),
            },
            Sign::Signed => match n_bytes {
                ByteWidth::One => AllowedRange::new(-0x80, 0x80),
                ByteWidth::Two => AllowedRange::new(-0x8000, 0x8000),
                ByteWidth::Four => AllowedRange::new(-0x8000_0000, 0x8000_0000),
                ByteWidth::Eight => AllowedRange::no_check(),
            },
        }
    }

    // Return true if the value is present in the allowed range.
    pub fn contains(self, value: i64) -> bool
        ensures { result ≡ contains (range_of self) value }
    {
        !self.checked || (self.min <= value && value < self.max)
    }
}

#[derive(Clone, Copy, Debug, PartialEq, Eq, Hash)]
pub struct RelocationKindInfo {
    pub kind: RelocationKind,
    pub size: RelocationSize,
    // Whether there is a page mask: never on x86-64.
    // Kept: a bool, here and for the bias. As in the Rust they would be Options of types that have no value here.
    pub mask: bool,
    pub range: AllowedRange,
    pub alignment: u8,
    // Whether there is a bias: never on x86-64.
    pub bias: bool,
    pub thunkable: bool,
    pub implicit_addend: bool,
}

impl RelocationKindInfo {
    // The Rust tests the alignment first: 1 in every row of x86-64, and every value is a multiple of 1.
    fn verify(self, value: i64) -> Result<(), Refusal>
        ensures { result ≡ cond (contains (range_of self.range) value) (Ok tt) (Err ValueOutOfRange) }
    {
        if !self.range.contains(value) {
            return Err(Refusal::ValueOutOfRange);
        }
        Ok(())
    }

    // The Rust tests the range first: here 16 comes before 15 (document 02, card 4).
    #[tactic(auto, unfolding(rules::specs::Fill::after_filling, rules::specs::Range::signed64))]
    pub fn write_to_buffer(self, value: u64, output: &mut [u8]) -> Result<(), Refusal>
        ensures value { result ≡ written_of (written self.size.byte_size (contains (range_of self.range) (signed64 value)) value output.old 0) }
        ensures output_after { output.new ≡ after_filling output.old (written self.size.byte_size (contains (range_of self.range) (signed64 value)) value output.old 0) }
    {
        let byte_size = self.size.byte_size as usize;
        if output.len() < byte_size {
            return Err(Refusal::FieldNotInside);
        }
        self.verify(value.cast_signed())?;
        let value_bytes = value.to_le_bytes();
        // The widths of four and eight bytes by themselves: an optimisation, as in the Rust.
        match byte_size {
            4 => output[..4].copy_from_slice(&value_bytes[..4]),
            8 => output[..8].copy_from_slice(&value_bytes),
            _ => write_low_first(value, &mut output[..byte_size]),
        }
        Ok(())
    }
}

// The low bytes of a value, low byte first, as many as `output` has: the Rust's `to_le_bytes`, at any width. Read back, they
// are the value's low part.
// Kept: byte by byte, since `to_le_bytes` has eight and a row's size may be more: a split, a copy and a fill would take the
// loop's place.
#[tactic(auto, using(rules::proofs::Widths::low_part))]
pub fn write_low_first(value: u64, output: &mut [u8])
    ensures output_after { output.new ≡ low_first (length output.old) value }
    ensures low_part { (w : ℕ) → LowPart w }
{
    let mut rest = value;
    for byte in output {
        *byte = (rest % 0x100) as u8;
        rest /= 0x100;
    }
}
