// x86_64.rs: RelaxationKind::apply.
#![tactic(auto)]

ghost use Rattle.std.specs.Prelude.{◌≡◌, cond, [], ◌∷◌, ◌+◌, ◌-◌, ◌/◌, ◌%◌, ◌≤◌, ◌<◌, length, get_or};
ghost use Rattle.std.proofs.lemmas.List.Edits.{sets};
ghost use Rattle.x86_64_kind.specs.Kinds.{begin, inside, shape_of};
ghost use Rattle.x86_64_kind.specs.declared.RelaxationKind.TheVariants.{RexAddIndirectToLea};
ghost use Rattle.rules.specs.Record.{link_limit};
ghost use Rattle.rules.specs.Rewrite.{moved, rex_copied, evex_moved, direct, based};
ghost use Rattle.rules.specs.Rewrite.{to_absolute, evex_to_absolute, rewritten, rewriting, after_rewriting};
ghost use Rattle.rules.specs.Meaning.{SameMeaning};
ghost use Rattle.x86_64_apply.specs.Apply.{applied_of, moved_by};

use refusal::Refusal;
use x86_64_kind::{RelaxationKind, Shape};

// Where the field lies now, and its addend.
#[derive(Clone, Copy, Debug, PartialEq, Eq, Hash)]
pub struct Moved {
    pub offset: u64,
    pub addend: i64,
}

// Rewrites the bytes of one instruction or sequence. Refusals 1, 2, 5, 6, which change nothing.
#[tactic(auto, unfolding(rules::specs::Rewrite::rewriting, rules::specs::Rewrite::after_rewriting))]
pub fn apply(
    kind: RelaxationKind,
    section_bytes: &mut [u8],
    offset_in_section: u64,
    addend: i64,
) -> Result<Moved, Refusal>
    ensures value { result ≡ applied_of (rewriting link_limit kind section_bytes.old offset_in_section addend) }
    ensures section_bytes_after { section_bytes.new ≡ after_rewriting section_bytes.old (rewriting link_limit kind section_bytes.old offset_in_section addend) }
    ensures same_meaning { SameMeaning section_bytes.old }
{
    let len = section_bytes.len() as u64;
    if rules::section_limit() < section_bytes.len() {
        return Err(Refusal::SectionTooLong);
    }
    if len < offset_in_section {
        return Err(Refusal::OffsetAboveLength);
    }
    if !kind.is_allowed() {
        return Err(Refusal::InstructionOffset);
    }
    let field = Field {
        len,
        offset: offset_in_section,
        addend,
    };
    rewrite(kind, section_bytes, field)
}

// Where the field lies in a section of a length, and its addend.
// Kept: the section beside it, and not in it. Lent with it, each writer would have to say that offset and addend stay, and a
// length in place of `len` that it stays.
#[derive(Clone, Copy, Debug)]
struct Field {
    len: u64,
    offset: u64,
    addend: i64,
    ghost inside: { offset ≤ len },
    ghost short: { len ≤ link_limit.most },
}

impl Field {
    // Where the field lies after rewriting, and its addend; refusal 6 where the window doesn't lie inside.
    fn moved(self, shape: Shape) -> Result<Moved, Refusal>
        ensures { result ≡ moved_by shape self.len self.offset self.addend }
    {
        if !shape.window.is_inside(self.len, self.offset) {
            return Err(Refusal::WindowNotInside);
        }
        Ok(Moved {
            offset: self.offset - shape.window.back + u64::from(shape.field),
            addend: if shape.clears { 0 } else { self.addend },
        })
    }

    // A fixed byte string in place of the window.
    fn replace(self, shape: Shape, section_bytes: &mut [u8], fixed: &[u8]) -> Result<Moved, Refusal>
        requires lent { length section_bytes.old ≡ self.len }
        requires whole { length fixed.now ≡ shape.window.size }
        ensures value { result ≡ moved_by shape self.len self.offset self.addend }
        ensures section_bytes_after { section_bytes.new ≡ cond (inside shape.window self.len self.offset) (sets section_bytes.old (begin shape.window self.offset) fixed.now) section_bytes.old }
    {
        let moved = self.moved(shape)?;
        write(
            section_bytes,
            (self.offset - shape.window.back) as usize,
            fixed,
        );
        Ok(moved)
    }

    // An operand that becomes a register, after a REX or REX2 prefix, whose register bits move.
    fn set_prefixed(
        self,
        shape: Shape,
        section_bytes: &mut [u8],
        inst_offset: u8,
        opcode: Opcode,
    ) -> Result<Moved, Refusal>
        requires lent { length section_bytes.old ≡ self.len }
        requires back { 3 ≤ shape.window.back }
        ensures value { result ≡ moved_by shape self.len self.offset self.addend }
        ensures section_bytes_after { section_bytes.new ≡ cond (inside shape.window self.len self.offset) (to_absolute inst_offset opcode.byte (opcode.own / 8) section_bytes.old self.offset) section_bytes.old }
    {
        let moved = self.moved(shape)?;
        let at = self.offset as usize;
        section_bytes[at - 3] = prefix_moved(inst_offset, section_bytes[at - 3]);
        set_register_form(section_bytes, at, opcode);
        Ok(moved)
    }
}

// By one match over the kinds as in the Rust.
// Kept: each arm asks for its shape and tests its window. Asked ahead of the match, relaxing the mix takes 286 instructions a
// call where this takes 254, and tested there rewriting takes 94 where this takes 67. The last arm by MOV joined to the first,
// relaxing by the two takes 309 and 322 where this takes 253 and 263.
fn rewrite(kind: RelaxationKind, section_bytes: &mut [u8], field: Field) -> Result<Moved, Refusal>
    requires { length section_bytes.old ≡ field.len }
    ensures value { result ≡ moved_by (shape_of kind) field.len field.offset field.addend }
    ensures section_bytes_after { section_bytes.new ≡ cond (inside (shape_of kind).window field.len field.offset) (rewritten kind section_bytes.old field.offset) section_bytes.old }
{
    let at = field.offset as usize;
    match kind {
        // Since the value is an address, a PC-relative mov becomes a PC-relative lea.
        RelaxationKind::MovIndirectToLea => field.replace(kind.shape(), section_bytes, b"\x8d"),
        RelaxationKind::MovIndirectToAbsolute => {
            let moved = field.moved(kind.shape())?;
            set_register_form(section_bytes, at, MOV);
            Ok(moved)
        }
        RelaxationKind::RexMovIndirectToAbsolute(inst_offset) => field.set_prefixed(
            kind.shape(),
            section_bytes,
            inst_offset,
            MOV,
        ),
        RelaxationKind::RexAddIndirectToAbsolute(6) => {
            let moved = field.moved(kind.shape())?;
            set_evex_add(section_bytes, at);
            Ok(moved)
        }
        RelaxationKind::RexAddIndirectToAbsolute(inst_offset) => field.set_prefixed(
            kind.shape(),
            section_bytes,
            inst_offset,
            ADD,
        ),
        RelaxationKind::RexAddIndirectToLea(_) => {
            let moved = field.moved(kind.shape())?;
            set_lea(section_bytes, at);
            Ok(moved)
        }
        RelaxationKind::RexSubIndirectToAbsolute(inst_offset) => field.set_prefixed(
            kind.shape(),
            section_bytes,
            inst_offset,
            SUB,
        ),
        RelaxationKind::RexCmpIndirectToAbsolute(inst_offset) => field.set_prefixed(
            kind.shape(),
            section_bytes,
            inst_offset,
            CMP,
        ),
        RelaxationKind::CallIndirectToRelative => field.replace(
            kind.shape(),
            section_bytes,
            b"\x67\xe8",
        ),
        RelaxationKind::JmpIndirectToRelative => field.replace(
            kind.shape(),
            section_bytes,
            b"\xe9\x00\x00\x00\x00\x90",
        ),
        // mov %fs:0,%rax; lea {offset}(%rax),%rax
        RelaxationKind::TlsGdToLocalExec => field.replace(
            kind.shape(),
            section_bytes,
            b"\x64\x48\x8b\x04\x25\x00\x00\x00\x00\x48\x8d\x80",
        ),
        // mov %fs:0,%rax; lea {offset}(%rax),%rax; nopw (%rax,%rax)
        RelaxationKind::TlsGdToLocalExecLarge => field.replace(
            kind.shape(),
            section_bytes,
            b"\x64\x48\x8b\x04\x25\x00\x00\x00\x00\x48\x8d\x80\x00\x00\x00\x00\x66\x0f\x1f\x44\x00\x00",
        ),
        // mov %fs:0,%rax; add *x,%rax
        RelaxationKind::TlsGdToInitialExec => field.replace(
            kind.shape(),
            section_bytes,
            b"\x64\x48\x8b\x04\x25\x00\x00\x00\x00\x48\x03\x05",
        ),
        // mov %fs:0,%rax
        RelaxationKind::TlsLdToLocalExec => field.replace(
            kind.shape(),
            section_bytes,
            b"\x66\x66\x66\x64\x48\x8b\x04\x25\x00\x00\x00\x00",
        ),
        // mov %fs:0,%rax
        RelaxationKind::TlsLdToLocalExecNoPlt => field.replace(
            kind.shape(),
            section_bytes,
            b"\x66\x66\x66\x66\x64\x48\x8b\x04\x25\x00\x00\x00\x00",
        ),
        // nopw (%rax,%rax); mov %fs:0,%rax
        RelaxationKind::TlsLdToLocalExec64 => field.replace(
            kind.shape(),
            section_bytes,
            b"\x66\x66\x66\x66\x2e\x0f\x1f\x84\x00\x00\x00\x00\x00\x64\x48\x8b\x04\x25\x00\x00\x00\x00",
        ),
        RelaxationKind::TlsDescToLocalExec(inst_offset) => field.set_prefixed(
            kind.shape(),
            section_bytes,
            inst_offset,
            MOV,
        ),
        // lea becomes mov, with the same prefix and addressing mode.
        RelaxationKind::TlsDescToInitialExec => field.replace(kind.shape(), section_bytes, b"\x8b"),
        // xchg %ax,%ax
        RelaxationKind::SkipTlsDescCall => field.replace(kind.shape(), section_bytes, b"\x66\x90"),
        RelaxationKind::NoOp => field.moved(kind.shape()),
    }
}

// ---- An operand

// An opcode, with the constant that it adds to its ModRM byte: the digit of Intel's notation, times 8.
#[derive(Clone, Copy, Debug)]
struct Opcode {
    byte: u8,
    own: u8,
    ghost digit: { (own % 8 ≡ 0) × (own < 64) },
}

const MOV: Opcode = Opcode { byte: 0xc7, own: 0 };

const ADD: Opcode = Opcode { byte: 0x81, own: 0 };

const SUB: Opcode = Opcode {
    byte: 0x81,
    own: 0x28,
};

const CMP: Opcode = Opcode {
    byte: 0x81,
    own: 0x38,
};

// An opcode, and its ModRM byte in register form: the table's entry plus the opcode's own constant.
fn set_register_form(section_bytes: &mut [u8], offset: usize, opcode: Opcode)
    requires { (2 ≤ offset) × (offset ≤ length section_bytes.old) }
    ensures { section_bytes.new ≡ sets section_bytes.old (offset - 2) (opcode.byte ∷ direct (opcode.own / 8) (get_or section_bytes.old (offset - 1) 0) ∷ []) }
{
    let mod_rm = section_bytes[offset - 1];
    section_bytes[offset - 2] = opcode.byte;
    section_bytes[offset - 1] = x86_64_mod_rm::register_form(mod_rm) + opcode.own;
}

// The same after an EVEX prefix: add.
fn set_evex_add(section_bytes: &mut [u8], offset: usize)
    requires { (5 ≤ offset) × (offset ≤ length section_bytes.old) }
    ensures { section_bytes.new ≡ evex_to_absolute section_bytes.old offset }
{
    section_bytes[offset - 5] = evex_moved(section_bytes[offset - 5]);
    set_register_form(section_bytes, offset, ADD);
}

// lea, with the register of a REX prefix and ModRM byte as its base too.
fn set_lea(section_bytes: &mut [u8], offset: usize)
    requires { (3 ≤ offset) × (offset ≤ length section_bytes.old) }
    ensures { section_bytes.new ≡ rewritten (RexAddIndirectToLea 3) section_bytes.old offset }
{
    let rex = section_bytes[offset - 3];
    let mod_rm = section_bytes[offset - 1];
    section_bytes[offset - 3] = rex_copied(rex);
    section_bytes[offset - 2] = 0x8d;
    section_bytes[offset - 1] = base_form(mod_rm);
}

// ---- A fixed byte string: the Rust's `copy_from_slice`

fn write(section_bytes: &mut [u8], at: usize, fixed: &[u8])
    requires { at + length fixed.now ≤ length section_bytes.old }
    ensures { section_bytes.new ≡ sets section_bytes.old at fixed.now }
{
    section_bytes[at..at + fixed.len()].copy_from_slice(fixed);
}

// ---- The register's bits

// The register extension bits go from R to B: in a REX2 payload R4 and R3, in REX the one.
fn prefix_moved(inst_offset: u8, rex: u8) -> u8
    ensures { result ≡ moved inst_offset rex }
{
    if inst_offset == 4 {
        (rex & !0x44) | ((rex & 0x44) >> 2)
    } else {
        (rex & !4) | ((rex & 4) >> 2)
    }
}

// REX: the register is in both fields, so R is copied into B.
fn rex_copied(rex: u8) -> u8
    ensures { result ≡ rex_copied rex }
{
    rex | ((rex & 4) >> 2)
}

// EVEX: a clear R3 (bit 7) is set and clears B3 (bit 5); a clear R4 (bit 4) is set and sets B4 (bit 3).
fn evex_moved(l5: u8) -> u8
    ensures { result ≡ evex_moved l5 }
{
    ((l5 | 0x80) & !((!l5 & 0x80) >> 2)) | 0x10 | ((!l5 & 0x10) >> 1)
}

// ModRM: the register in both fields, with a 32-bit displacement. This is no register form, so it keeps its formula.
fn base_form(mod_rm: u8) -> u8
    ensures { result ≡ based mod_rm }
{
    0x80 | (((mod_rm >> 3) & 7) << 3) | ((mod_rm >> 3) & 7)
}
