// Exported to C and Rust: filling a field. include/jitamoro.h says the same in C. The function takes any arguments; a slice
// is passed as a pointer and a length.
// Kept: C passes a record's fields one by one and has a refusal as its number.
#![tactic(auto)]

ghost use Rattle.std.specs.Prelude.{◌≡◌, List, ℕ, true};
ghost use Rattle.rules.specs.Record.{link_limit};
ghost use Rattle.rules.specs.Fill.{field, filling, after_filling, FilledAt, loaded_at, Fills};
ghost use Rattle.rules.specs.Meaning.{SameMeaning};
ghost use Rattle.elf_fill.specs.Filling.{filling_of};
ghost use Rattle.jitamoro_fill.specs.Layout.{filled_layout};

use refusal::Refusal;
use rules::Field;

// A refusal or 0, and whether the field was filled: not under a refusal, nor where the type is none of the four.
#[repr(C)]
#[derive(Clone, Copy, Debug, PartialEq, Eq, Hash)]
pub struct FilledAnswer {
    pub refusal: u8,
    pub filled: bool,
}

impl From<Result<bool, Refusal>> for FilledAnswer {
    ghost from_gives = { λ filled answer. answer ≡ filled_layout filled };

    fn from(filled: Result<bool, Refusal>) -> FilledAnswer {
        match filled {
            Ok(filled) => FilledAnswer { refusal: 0, filled },
            Err(refusal) => FilledAnswer {
                refusal: refusal.number(),
                filled: false,
            },
        }
    }
}

// Fills a field of type 2, 10, 11 or 23. Refusals 1, 2, 7, 16, 15.
#[unsafe(no_mangle)]
pub extern "C" fn jitamoro_fill(
    r_type: u32,
    section: &mut [u8],
    offset: u64,
    place: u64,
    value: u64,
    addend: i64,
) -> FilledAnswer
    ensures value { result ≡ filled_layout (filling_of (filling link_limit section.old (field r_type offset place value addend))) }
    ensures section_after { section.new ≡ after_filling section.old (filling link_limit section.old (field r_type offset place value addend)) }
    ensures leaves { (base : ℕ) → loaded_at (field r_type offset place value addend) base → result.filled ≡ true → FilledAt (field r_type offset place value addend) base section.old section.new }
    ensures fills { Fills link_limit section.old (field r_type offset place value addend) }
    ensures same_meaning { (sec : List ℕ) → SameMeaning sec }
{
    let field = Field {
        r_type,
        offset,
        address: place,
        value,
        addend,
    };
    FilledAnswer::from(elf_fill::fill(section, field))
}
