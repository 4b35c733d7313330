// elf_x86_64.rs: Relaxation and its accessors.
#![tactic(auto)]

ghost use Rattle.std.specs.Prelude.{◌≡◌};
ghost use Rattle.x86_64_kind.specs.Kinds.{skips, is_skip};
ghost use Rattle.rules.specs.Types.{lookup};
ghost use Rattle.rules.specs.Choose.{needs_fallback};
ghost use Rattle.rules.specs.Records.{FallbackWorked};
ghost use Rattle.rules.specs.Rewrite.{claims};
ghost use Rattle.x86_64_types.specs.Types.{found_of};

use elf::RelocationKindInfo;
use elf_kind::RelocationKind;
use refusal::Refusal;
use x86_64_kind::{RelaxationKind, RelocationModifier, Window};

#[derive(Clone, Copy, Debug, PartialEq, Eq, Hash)]
pub struct Relaxation {
    pub kind: RelaxationKind,
    // The Rust keeps the row of this type, `rel_info`.
    pub new_type: u32,
    pub mandatory: bool,
}

impl Relaxation {
    // The row of the new type.
    pub fn rel_info(self) -> Result<RelocationKindInfo, Refusal>
        ensures { result ≡ found_of (lookup self.new_type) }
    {
        x86_64_types::relocation_from_raw(self.new_type)
    }

    pub fn next_modifier(self) -> RelocationModifier
        ensures { is_skip result ≡ skips self.kind }
    {
        self.kind.next_modifier()
    }

    pub fn is_mandatory(self) -> bool
        ensures { result ≡ self.mandatory }
    {
        self.mandatory
    }

    // Whether the new type's kind is Absolute.
    #[tactic(auto, using(rules::proofs::Records::fallback_worked), unfolding(rules::specs::Choose::needs_fallback))]
    pub fn needs_got_fallback(self) -> bool
        ensures value { result ≡ needs_fallback self.new_type }
        ensures fallback_worked { FallbackWorked }
    {
        self.rel_info()
            .is_ok_and(|info| info.kind == RelocationKind::Absolute)
    }

    // The window that relaxing and a pass claim.
    #[tactic(auto, unfolding(rules::specs::Rewrite::claims))]
    pub fn claim(self) -> Window
        ensures { result ≡ claims self.kind self.new_type }
    {
        self.kind.shape().window
    }
}
