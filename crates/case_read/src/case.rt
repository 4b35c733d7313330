// A record of the file, and its section: a module of its own, since the definition that says which record it is speaks of it.
ghost use Rattle.std.specs.Prelude.{◌≡◌, ◌+◌, ◌≤◌, length};

use rules::Relocation;

// The section is no longer than a record's can be.
#[derive(Clone, Copy)]
pub struct Case<'a> {
    pub rel: Relocation,
    pub section: &'a [u8],
    pub ghost short: { length section.now ≤ 4096 },
}

impl Case<'_> {
    // How many bytes of the file it takes.
    pub(crate) fn size(&self) -> usize
        ensures { result ≡ 26 + length self.now.section.now }
    {
        26 + self.section.len()
    }
}
