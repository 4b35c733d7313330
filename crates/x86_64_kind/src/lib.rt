// x86_64.rs: RelaxationKind, with its numbers of document 01 and what 'Rewriting' says of each kind but its
// bytes; relaxation.rs: RelocationModifier.
#![tactic(auto)]

ghost use Rattle.std.specs.Prelude.{◌≡◌};
ghost use Rattle.x86_64_kind.specs.Kinds.{inside, shape, shape_of, allowed, allows, skips, is_skip, numbered};

#[derive(Clone, Copy, Debug, PartialEq, Eq, Hash)]
pub enum RelaxationKind {
    // A mov that would have loaded an address doesn't use the GOT: `mov *x(%rip), reg` -> `lea x(%rip), reg`.
    MovIndirectToLea,
    // A mov that would have loaded an absolute value doesn't use the GOT: `mov *x(%rip), reg` -> `mov x, reg`.
    MovIndirectToAbsolute,
    // The same with a prefix. The number is the instruction offset: how far before the field the
    // instruction starts.
    RexMovIndirectToAbsolute(u8),
    // An indirect add becomes an absolute add.
    RexAddIndirectToAbsolute(u8),
    // An indirect add becomes a lea with the destination register as its base:
    // `add x(%rip), reg` -> `lea x(reg), reg`. Never chosen; GNU ld does it. Only with a REX prefix.
    RexAddIndirectToLea(u8),
    // An indirect sub becomes an absolute sub.
    RexSubIndirectToAbsolute(u8),
    // An indirect cmp becomes an absolute cmp.
    RexCmpIndirectToAbsolute(u8),
    // `call *x(%rip)` -> `call x(%rip)`
    CallIndirectToRelative,
    // `jmp *x(%rip)` -> `jmp x(%rip)`
    JmpIndirectToRelative,
    // The instruction is left alone, and only the kind of relocation changes.
    NoOp,
    // General dynamic (GD) to local exec.
    TlsGdToLocalExec,
    // The same for the large-model form.
    TlsGdToLocalExecLarge,
    // Local dynamic (LD) to local exec.
    TlsLdToLocalExec,
    // The same where an indirect call follows.
    TlsLdToLocalExecNoPlt,
    // The same for the large-model sequence.
    TlsLdToLocalExec64,
    // General dynamic (GD) to initial exec.
    TlsGdToInitialExec,
    // TLSDESC to local exec.
    TlsDescToLocalExec(u8),
    // TLSDESC to initial exec.
    TlsDescToInitialExec,
    // A TLSDESC_CALL becomes a no-op.
    SkipTlsDescCall,
}

// The bytes that a kind reads or writes: `size` of them, from `back` before the offset on.
#[derive(Clone, Copy, Debug, PartialEq, Eq, Hash)]
pub struct Window {
    pub back: u64,
    pub size: u64,
}

// What `apply` does for a kind, but for the bytes.
#[derive(Clone, Copy, Debug, PartialEq, Eq, Hash)]
pub struct Shape {
    // "0 to 18 in the order of `RelaxationKind`": with the instruction offset it tells the kind.
    pub number: u8,
    // How far before the field the instruction starts, or 0 where the kind has none.
    pub inst_offset: u8,
    pub window: Window,
    // Where the field lies afterwards, from the window's begin on.
    pub field: u8,
    // Whether the addend becomes 0.
    pub clears: bool,
}

#[derive(Clone, Copy, Debug, PartialEq, Eq, Hash)]
pub enum RelocationModifier {
    Normal,
    SkipNextRelocation,
}

impl RelocationModifier {
    pub fn is_skip(self) -> bool
        ensures { result ≡ is_skip self }
    {
        self == RelocationModifier::SkipNextRelocation
    }
}

impl Window {
    // Whether it lies wholly inside a section of a length.
    pub fn is_inside(self, len: u64, offset: u64) -> bool
        ensures { result ≡ inside self len offset }
    {
        let back = self.back;
        back <= offset && offset - back <= len && self.size <= len - (offset - back)
    }
}

fn row(number: u8, inst_offset: u8, back: u64, size: u64, field: u8, clears: bool) -> Shape
    ensures { result ≡ shape number inst_offset back size field clears }
{
    Shape {
        number,
        inst_offset,
        window: Window { back, size },
        field,
        clears,
    }
}

impl RelaxationKind {
    pub fn shape(self) -> Shape
        ensures { result ≡ shape_of self }
    {
        match self {
            RelaxationKind::MovIndirectToLea => row(0, 0, 2, 1, 2, false),
            RelaxationKind::MovIndirectToAbsolute => row(1, 0, 2, 2, 2, true),
            RelaxationKind::RexMovIndirectToAbsolute(n) => row(2, n, 3, 3, 3, true),
            // "RexAdd with 6 −5 to 0"
            RelaxationKind::RexAddIndirectToAbsolute(6) => row(3, 6, 5, 5, 5, true),
            RelaxationKind::RexAddIndirectToAbsolute(n) => row(3, n, 3, 3, 3, true),
            RelaxationKind::RexAddIndirectToLea(n) => row(4, n, 3, 3, 3, true),
            RelaxationKind::RexSubIndirectToAbsolute(n) => row(5, n, 3, 3, 3, true),
            RelaxationKind::RexCmpIndirectToAbsolute(n) => row(6, n, 3, 3, 3, true),
            RelaxationKind::CallIndirectToRelative => row(7, 0, 2, 2, 2, false),
            RelaxationKind::JmpIndirectToRelative => row(8, 0, 2, 6, 1, false),
            RelaxationKind::NoOp => row(9, 0, 0, 0, 0, false),
            RelaxationKind::TlsGdToLocalExec => row(10, 0, 4, 12, 12, true),
            RelaxationKind::TlsGdToLocalExecLarge => row(11, 0, 3, 22, 12, true),
            RelaxationKind::TlsLdToLocalExec => row(12, 0, 3, 12, 8, false),
            RelaxationKind::TlsLdToLocalExecNoPlt => row(13, 0, 3, 13, 8, false),
            RelaxationKind::TlsLdToLocalExec64 => row(14, 0, 3, 22, 18, false),
            RelaxationKind::TlsGdToInitialExec => row(15, 0, 4, 12, 12, false),
            RelaxationKind::TlsDescToLocalExec(n) => row(16, n, 3, 3, 3, true),
            RelaxationKind::TlsDescToInitialExec => row(17, 0, 2, 1, 2, false),
            RelaxationKind::SkipTlsDescCall => row(18, 0, 0, 2, 0, false),
        }
    }

    pub fn number(self) -> u8
        ensures { result ≡ (shape_of self).number }
    {
        self.shape().number
    }

    pub fn inst_offset(self) -> u8
        ensures { result ≡ (shape_of self).inst_offset }
    {
        self.shape().inst_offset
    }

    // Whether the kind's instruction offset is allowed; refusal 5 where it isn't.
    pub fn is_allowed(self) -> bool
        ensures { result ≡ allowed self }
    {
        match self {
            RelaxationKind::RexAddIndirectToLea(n) => n == 3,
            RelaxationKind::RexAddIndirectToAbsolute(n) => matches!(n, 3 | 4 | 6),
            RelaxationKind::RexMovIndirectToAbsolute(n)
            | RelaxationKind::RexSubIndirectToAbsolute(n)
            | RelaxationKind::RexCmpIndirectToAbsolute(n)
            | RelaxationKind::TlsDescToLocalExec(n) => matches!(n, 3 | 4),
            _ => true,
        }
    }

    pub fn next_modifier(self) -> RelocationModifier
        ensures { is_skip result ≡ skips self }
    {
        match self {
            RelaxationKind::TlsGdToLocalExec
            | RelaxationKind::TlsGdToLocalExecLarge
            | RelaxationKind::TlsLdToLocalExec
            | RelaxationKind::TlsLdToLocalExecNoPlt
            | RelaxationKind::TlsLdToLocalExec64
            | RelaxationKind::TlsGdToInitialExec => RelocationModifier::SkipNextRelocation,
            _ => RelocationModifier::Normal,
        }
    }

    // The kind of a number. A number of no kind gives RexMovIndirectToAbsolute(0), whose instruction
    // offset is not allowed.
    // Kept: no Option, which each caller would unwrap to that same kind, so that 5 comes after 1 and 2.
    pub fn from_number(number: u8, inst_offset: u8) -> RelaxationKind
        ensures { result ≡ numbered number inst_offset }
    {
        match number {
            0 => RelaxationKind::MovIndirectToLea,
            1 => RelaxationKind::MovIndirectToAbsolute,
            2 => RelaxationKind::RexMovIndirectToAbsolute(inst_offset),
            3 => RelaxationKind::RexAddIndirectToAbsolute(inst_offset),
            4 => RelaxationKind::RexAddIndirectToLea(inst_offset),
            5 => RelaxationKind::RexSubIndirectToAbsolute(inst_offset),
            6 => RelaxationKind::RexCmpIndirectToAbsolute(inst_offset),
            7 => RelaxationKind::CallIndirectToRelative,
            8 => RelaxationKind::JmpIndirectToRelative,
            9 => RelaxationKind::NoOp,
            10 => RelaxationKind::TlsGdToLocalExec,
            11 => RelaxationKind::TlsGdToLocalExecLarge,
            12 => RelaxationKind::TlsLdToLocalExec,
            13 => RelaxationKind::TlsLdToLocalExecNoPlt,
            14 => RelaxationKind::TlsLdToLocalExec64,
            15 => RelaxationKind::TlsGdToInitialExec,
            16 => RelaxationKind::TlsDescToLocalExec(inst_offset),
            17 => RelaxationKind::TlsDescToInitialExec,
            18 => RelaxationKind::SkipTlsDescCall,
            _ => RelaxationKind::RexMovIndirectToAbsolute(0),
        }
    }
}
