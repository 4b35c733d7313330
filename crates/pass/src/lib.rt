// The pass above one record: it walks a section's records by value, and sees of choosing and of
// relaxing by a choice only what they promise. A refusal hands the pass and the section back unchanged.
#![tactic(auto)]

ghost use Rattle.std.specs.Prelude.{◌≡◌};
ghost use Rattle.rules.specs.Meaning.{SameMeaning};
ghost use Rattle.pass.specs.Pass.{fresh_pass, stepping};
ghost use Rattle.pass.specs.Walk.{Walks};
ghost use Rattle.pass.specs.Worked.{WalkWorked};
ghost use Rattle.pass.specs.Answers.{taken, step, ended, placed, accepting};

use elf_x86_64_relaxation::Relaxation;
use refusal::Refusal;
use relax::Relaxed;
use rules::Relocation;

// The last offset, the end of the last window that isn't empty, whether a skip is pending, and
// whether the pass has ended.
#[repr(C)]
#[derive(Clone, Copy, Debug, Default, PartialEq, Eq, Hash)]
pub struct Pass {
    pub last: u64,
    pub window: u64,
    pub skip: bool,
    pub ended: bool,
}

// An accepted record: taken, with what relaxing gave if anything, or skipped.
#[derive(Clone, Copy, Debug, PartialEq, Eq, Hash)]
pub enum Step {
    Took(Option<Relaxed>),
    Skipped,
}

// Kept: a pass beside each answer, here and in `Ended`, and not within Ok, since a refusal hands the pass back unchanged
// (document 01); and two structs, since definitions read by the answers' names, which one over the answer's type hasn't.
#[derive(Clone, Copy, Debug, PartialEq, Eq, Hash)]
pub struct Stepped {
    pub pass: Pass,
    pub step: Result<Step, Refusal>,
}

#[derive(Clone, Copy, Debug, PartialEq, Eq, Hash)]
pub struct Ended {
    pub pass: Pass,
    pub end: Result<(), Refusal>,
}

impl Pass {
    // A pass before its first record. The contract also says what holds of every walk, from any pass on,
    // with a worked one.
    #[tactic(auto, using(crate::proofs::Walk::walks, crate::proofs::Worked::worked))]
    pub fn fresh() -> Pass
        ensures value { result ≡ fresh_pass }
        ensures walks { Walks }
        ensures walk_worked { WalkWorked }
    {
        Pass::default()
    }

    // Takes one record. Refusals 21, 1, 2, 3, 4, 22, 6, 23.
    #[tactic(auto, using(rules::proofs::Theorem::same_meaning_of))]
    pub fn step(self, section_bytes: &mut [u8], rel: Relocation) -> Stepped
        ensures section_bytes_after { taken result section_bytes.new ≡ step self section_bytes.old rel }
        ensures same_meaning { SameMeaning section_bytes.old }
    {
        match self.accept(section_bytes, rel) {
            Ok((pass, step)) => Stepped {
                pass,
                step: Ok(step),
            },
            Err(refusal) => Stepped {
                pass: self,
                step: Err(refusal),
            },
        }
    }

    // Ends the pass. Refusals 21, 24.
    pub fn end(self) -> Ended
        ensures { result ≡ ended self }
    {
        if self.ended {
            return Ended {
                pass: self,
                end: Err(Refusal::PassEnded),
            };
        }
        if self.skip {
            return Ended {
                pass: self,
                end: Err(Refusal::SkipPending),
            };
        }
        Ended {
            pass: Pass {
                ended: true,
                ..self
            },
            end: Ok(()),
        }
    }

    // 21, then 1, 2, 3, 4 as choosing has them, 22, the skip, then 23 where the window lies inside, or 6.
    // A type 0 record leaves a pending skip as it is.
    #[tactic(auto, using(crate::proofs::Steps::by_ended, crate::proofs::Steps::by_refusal, crate::proofs::Steps::by_offset, crate::proofs::Steps::by_type0, crate::proofs::Steps::by_skip, crate::proofs::Steps::by_none))]
    fn accept(self, section_bytes: &mut [u8], rel: Relocation) -> Result<(Pass, Step), Refusal>
        ensures { (result, section_bytes.new) ≡ accepting self section_bytes.old rel (stepping self section_bytes.old rel) }
    {
        if self.ended {
            return Err(Refusal::PassEnded);
        }
        let choice = elf_x86_64_new_relaxation::new_relaxation(section_bytes, rel)?;
        if rel.offset < self.last {
            return Err(Refusal::OffsetBelowLast);
        }
        let mut pass = Pass {
            last: rel.offset,
            ..self
        };
        if self.skip {
            if rel.r_type == object::R_X86_64_NONE {
                return Ok((pass, Step::Took(None)));
            }
            pass.skip = false;
            return Ok((pass, Step::Skipped));
        }
        let Some(relaxation) = choice else {
            return Ok((pass, Step::Took(None)));
        };
        pass.window = self.place(relaxation, section_bytes.len() as u64, rel.offset)?;
        pass.skip = relaxation.next_modifier().is_skip();
        let relaxed = relax::finish(section_bytes, rel, relaxation)?;
        Ok((pass, Step::Took(Some(relaxed))))
    }

    // 23, or the window's end once the record is relaxed. A window that isn't inside is left to relaxing.
    fn place(self, relaxation: Relaxation, len: u64, offset: u64) -> Result<u64, Refusal>
        ensures { result ≡ placed self relaxation len offset }
    {
        let window = relaxation.claim();
        if window.size == 0 || !window.is_inside(len, offset) {
            return Ok(self.window);
        }
        let begin = offset - window.back;
        if begin < self.window {
            return Err(Refusal::WindowOverlap);
        }
        Ok(begin + window.size)
    }
}
