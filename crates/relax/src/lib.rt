// Relaxing one record: choosing, then rewriting. It sees of both only what they promise.
#![tactic(auto)]

ghost use Rattle.std.specs.Prelude.{◌≡◌};
ghost use Rattle.rules.specs.Record.{link_limit};
ghost use Rattle.rules.specs.Choose.{choosing};
ghost use Rattle.rules.specs.Rewrite.{rewriting, after_rewriting, relaxing, after_relaxing};
ghost use Rattle.rules.specs.Meaning.{SameMeaning};
ghost use Rattle.x86_64_apply.specs.Apply.{applied_of};
ghost use Rattle.elf_x86_64_relaxation.specs.Choices.{choice_of};
ghost use Rattle.relax.specs.Answers.{relaxed_of, finished, Relaxes};

use elf_x86_64_relaxation::Relaxation;
use refusal::Refusal;
use rules::Relocation;
use x86_64_apply::Moved;

#[derive(Clone, Copy, Debug, PartialEq, Eq, Hash)]
pub struct Relaxed {
    pub relaxation: Relaxation,
    pub moved: Moved,
}

// Relaxes one record in its section. Refusals 1, 2, 3, 4, 6; a refusal and none change nothing.
// Kept: section and record as two parameters, which is plainer: a section is lent for many records, so a struct of both
// would be made anew for each.
#[tactic(auto, using(rules::proofs::Theorem::same_meaning_of, crate::proofs::Relaxing::of_refusal, crate::proofs::Relaxing::of_none))]
pub fn relax(section_bytes: &mut [u8], rel: Relocation) -> Result<Option<Relaxed>, Refusal>
    ensures value { result ≡ relaxed_of (relaxing link_limit section_bytes.old rel) }
    ensures section_bytes_after { section_bytes.new ≡ after_relaxing section_bytes.old (relaxing link_limit section_bytes.old rel) }
    ensures same_meaning { SameMeaning section_bytes.old }
{
    match elf_x86_64_new_relaxation::new_relaxation(section_bytes, rel)? {
        Some(relaxation) => Ok(Some(finish(section_bytes, rel, relaxation)?)),
        None => Ok(None),
    }
}

// Rewrites by a choice, whatever it is. Where it is what choosing gives for the record, that is relaxing it.
pub fn finish(
    section_bytes: &mut [u8],
    rel: Relocation,
    relaxation: Relaxation,
) -> Result<Relaxed, Refusal>
    ensures value { result ≡ finished relaxation (applied_of (rewriting link_limit relaxation.kind section_bytes.old rel.offset rel.addend)) }
    ensures section_bytes_after { section_bytes.new ≡ after_rewriting section_bytes.old (rewriting link_limit relaxation.kind section_bytes.old rel.offset rel.addend) }
    ensures relaxes { Ok (Some relaxation) ≡ choice_of (choosing link_limit section_bytes.old rel) → Relaxes section_bytes.old rel result section_bytes.new }
{
    let moved = x86_64_apply::apply(relaxation.kind, section_bytes, rel.offset, rel.addend)?;
    Ok(Relaxed { relaxation, moved })
}
