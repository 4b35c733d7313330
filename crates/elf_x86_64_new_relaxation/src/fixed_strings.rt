// elf_x86_64.rs, new_relaxation: fixed byte strings, compared with a part of a section.
ghost use Rattle.std.specs.Prelude.{◌≡◌, drop};
ghost use Rattle.rules.specs.Choose.{starts_with};

// Whether a part starts with a fixed byte string.
// Kept: a function of its own, since with the library's called in its place tlsgd's proof didn't close.
#[tactic(auto, using(crate::proofs::Laws::starts))]
pub fn starts_with(part: &[u8], fixed: &[u8]) -> bool
    ensures { result ≡ starts_with fixed.now part.now }
{
    part.starts_with(fixed)
}

// The part from a place on, empty past the end.
pub fn part_from(section_bytes: &[u8], at: usize) -> &[u8]
    ensures { result.now ≡ drop at section_bytes.now }
{
    section_bytes.get(at..).unwrap_or(&[])
}
