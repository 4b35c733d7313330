// elf_x86_64.rs, new_relaxation: a record with its numbers read, and what is asked of it.
ghost use Rattle.std.specs.Prelude.{◌≡◌, ◌≤◌, length, take, ◌&&◌};
ghost use Rattle.rules.specs.Record.{is_a, is_k, is_f};
ghost use Rattle.rules.specs.Choose.{is_minus4, stands};
ghost use Rattle.output_kind.specs.Output.{output_number};

use output_kind::OutputKind;
use value_flags::ValueFlags;

// The offset lies in the section.
#[derive(Clone, Copy)]
pub struct Asked<'a> {
    pub section_bytes: &'a [u8],
    pub r_type: u32,
    pub offset: usize,
    pub flags: ValueFlags,
    pub output_kind: OutputKind,
    pub executable: bool,
    pub address: u64,
    pub addend: i64,
    ghost inside: { offset ≤ length section_bytes.now },
}

impl<'a> Asked<'a> {
    // The part before the offset, on which the instruction is matched from its end.
    pub fn before(&self) -> &'a [u8]
        ensures { result.now ≡ take self.now.offset self.now.section_bytes.now }
    {
        &self.section_bytes[..self.offset]
    }

    // Whether a fixed byte string stands before the offset.
    #[tactic(auto, using(crate::proofs::Laws::ends))]
    pub fn stands_before(&self, fixed: &[u8]) -> bool
        ensures { result ≡ stands self.now.section_bytes.now self.now.offset fixed.now }
    {
        self.before().ends_with(fixed)
    }

    pub fn is_minus_4(&self) -> bool
        ensures { result ≡ is_minus4 self.now.addend }
    {
        self.addend == -4
    }

    // A
    pub fn is_absolute(&self) -> bool
        ensures { result ≡ is_a self.now.flags.bits }
    {
        self.flags.is_absolute() && !self.flags.is_dynamic()
    }

    // K and F
    pub fn is_absolute_address(&self) -> bool
        ensures { result ≡ (is_k self.now.flags.bits && is_f (output_number self.now.output_kind)) }
    {
        self.flags.has_link_time_address() && self.output_kind.has_fixed_load_address()
    }
}
