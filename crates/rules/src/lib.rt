// Document 01 as definitions in specs/: the rules, the machine, and same meaning; the theorems about them stand in
// proofs/. No code here chooses, rewrites or relaxes: the crates above state their promises with these definitions.
#![tactic(auto)]

ghost use Rattle.std.specs.Prelude.{◌≡◌, List, ℕ};
ghost use Rattle.rules.specs.Record.{link_limit};
ghost use Rattle.rules.specs.Meaning.{SameMeaning};
ghost use Rattle.rules.specs.Instances.{MeaningWorked};
ghost use Rattle.rules.specs.Runs.{Measured};
ghost use Rattle.rules.specs.Starred.{StarredHold};

// "A record has a type number .., an offset, a flag number .., an output kind, an executable yes/no, a symbol address .. and
// a signed addend"
#[derive(Clone, Copy, Debug, PartialEq, Eq, Hash)]
pub struct Relocation {
    pub r_type: u32,
    pub offset: u64,
    // Kept: numbers, since a record may hold any, and those that mean nothing are refused (3, 4).
    pub flags: u8,
    pub output_kind: u8,
    pub executable: bool,
    pub address: u64,
    pub addend: i64,
}

// "the new type, the field's offset and address, symbol value and addend": a field to fill. For type 23 the value is the
// thread-pointer offset. The address is given, and not computed from the offset.
#[derive(Clone, Copy, Debug, PartialEq, Eq, Hash)]
pub struct Field {
    pub r_type: u32,
    pub offset: u64,
    pub address: u64,
    pub value: u64,
    pub addend: i64,
}

// The longest section, in bytes. The theorems about the definitions, for all of them, and what keeps them from being
// about nothing are promised here: worked instances of same meaning, a machine that takes a real CPU's steps, and rules
// that give document 01's records.
pub fn section_limit() -> usize
    ensures value { result ≡ link_limit.most }
    ensures same_meaning { (sec : List ℕ) → SameMeaning sec }
    ensures meaning_worked { MeaningWorked }
    ensures measured { Measured }
    ensures starred_hold { StarredHold }
{
    268435456
}
