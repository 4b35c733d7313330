// What choosing, rewriting and relaxing answer, in the layout of the exported functions.
// Kept: C's structs have a refusal as its number, and the fields of what isn't given as 0.
#![tactic(auto)]

ghost use Rattle.std.specs.Prelude.{◌≡◌};
ghost use Rattle.answers.specs.Layout.{chosen_layout, refused_layout, choice_layout, is_none, moved_layout, relaxed_layout};

use elf_x86_64_relaxation::Relaxation;
use refusal::Refusal;
use relax::Relaxed;
use x86_64_apply::Moved;

// A choice. The bytes of `head`, low byte first: the refusal; then, where a kind was chosen, 1, the kind, its
// instruction offset, mandatory, skip the next relocation, needs a GOT fallback; and 0. C and Rust have a field for each of
// the seven, at the same places: there the struct ends after `new_type`, 4 bytes earlier, which shows neither in two
// registers nor before the offset of `RelaxedAnswer`.
// Kept: one number in place of the seven fields, with which an answer takes four stores where it took ten.
#[repr(C)]
#[derive(Clone, Copy, Debug, Default, PartialEq, Eq, Hash)]
pub struct ChoiceAnswer {
    pub head: u64,
    pub new_type: u32,
}

impl ChoiceAnswer {
    // Whether nothing is chosen, and nothing refused: then every byte of the head is 0.
    pub fn is_none(self) -> bool
        ensures { result ≡ is_none self }
    {
        self.head == 0
    }
}

// Where the field lies after rewriting, and its addend.
#[repr(C)]
#[derive(Clone, Copy, Debug, Default, PartialEq, Eq, Hash)]
pub struct MovedAnswer {
    pub refusal: u8,
    pub offset: u64,
    pub addend: i64,
}

// A choice that was carried out, with where the field lies now. Refusals stand in the choice.
#[repr(C)]
#[derive(Clone, Copy, Debug, Default, PartialEq, Eq, Hash)]
pub struct RelaxedAnswer {
    pub choice: ChoiceAnswer,
    pub offset: u64,
    pub addend: i64,
}

impl From<Result<Option<Relaxation>, Refusal>> for ChoiceAnswer {
    ghost from_gives = { λ choice answer. answer ≡ choice_layout choice };

    fn from(choice: Result<Option<Relaxation>, Refusal>) -> ChoiceAnswer {
        match choice {
            Ok(Some(relaxation)) => chosen(relaxation),
            Ok(None) => ChoiceAnswer::default(),
            Err(refusal) => refused(refusal),
        }
    }
}

impl From<Result<Moved, Refusal>> for MovedAnswer {
    ghost from_gives = { λ moved answer. answer ≡ moved_layout moved };

    fn from(moved: Result<Moved, Refusal>) -> MovedAnswer {
        match moved {
            Ok(Moved { offset, addend }) => MovedAnswer {
                refusal: 0,
                offset,
                addend,
            },
            Err(refusal) => MovedAnswer {
                refusal: refusal.number(),
                ..MovedAnswer::default()
            },
        }
    }
}

impl From<Result<Option<Relaxed>, Refusal>> for RelaxedAnswer {
    ghost from_gives = { λ relaxed answer. answer ≡ relaxed_layout relaxed };

    fn from(relaxed: Result<Option<Relaxed>, Refusal>) -> RelaxedAnswer {
        match relaxed {
            Ok(Some(Relaxed { relaxation, moved })) => RelaxedAnswer {
                choice: chosen(relaxation),
                offset: moved.offset,
                addend: moved.addend,
            },
            Ok(None) => RelaxedAnswer::default(),
            Err(refusal) => RelaxedAnswer {
                choice: refused(refusal),
                ..RelaxedAnswer::default()
            },
        }
    }
}

fn chosen(relaxation: Relaxation) -> ChoiceAnswer
    ensures { result ≡ chosen_layout relaxation }
{
    ChoiceAnswer {
        head: u64::from_le_bytes([
            0,
            1,
            relaxation.kind.number(),
            relaxation.kind.inst_offset(),
            u8::from(relaxation.is_mandatory()),
            u8::from(relaxation.next_modifier().is_skip()),
            u8::from(relaxation.needs_got_fallback()),
            0,
        ]),
        new_type: relaxation.new_type,
    }
}

fn refused(refusal: Refusal) -> ChoiceAnswer
    ensures { result ≡ refused_layout refusal }
{
    ChoiceAnswer {
        head: u64::from(refusal.number()),
        new_type: 0,
    }
}
