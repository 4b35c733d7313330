// elf.rs: RelocationKind, the sixteen that x86-64 uses, in the Rust's order.
#![tactic(auto)]

ghost use Rattle.std.specs.Prelude.{◌≡◌};
ghost use Rattle.elf_kind.specs.Kind.{kind_number};

#[derive(Clone, Copy, Debug, PartialEq, Eq, Hash)]
pub enum RelocationKind {
    // The absolute address of a symbol or section.
    Absolute,
    // The size of a symbol rather than its address.
    SymbolSize,
    // The address of the symbol, relative to the place of the relocation.
    Relative,
    // The address of the symbol, relative to the base address of the GOT.
    SymRelGotBase,
    // The offset of the symbol's GOT entry, relative to the start of the GOT.
    GotRelGotBase,
    // The address of the symbol's PLT entry, relative to the base address of the GOT.
    PltRelGotBase,
    // The address of the symbol's PLT entry, relative to the place of relocation.
    PltRelative,
    // The address of the symbol's GOT entry, relative to the place of the relocation.
    GotRelative,
    // The address of a TLSGD structure, relative to the place of the relocation.
    TlsGd,
    // The address of the TLS module ID, relative to the place of the relocation.
    TlsLd,
    // The offset of a thread-local within the TLS storage of the DSO that defines it.
    DtpOff,
    // The address of a GOT entry with a TLS offset, relative to the place of the relocation.
    GotTpOff,
    // The offset of a TLS variable within the executable's TLS storage.
    TpOff,
    // The address of a TLS descriptor structure, relative to the place of the relocation.
    TlsDesc,
    // Call to the TLS descriptor trampoline.
    TlsDescCall,
    // No relocation needs to be applied.
    None,
}

impl RelocationKind {
    // The kind's place among these sixteen, from 0.
    pub fn number(self) -> u8
        ensures { result ≡ kind_number self }
    {
        self as u8
    }
}
