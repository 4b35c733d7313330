// The pass as the caller holds it, for jitamoro_pass_c and jitamoro_tally, which export it: a crate that another stands on
// exports nothing to C.
#![tactic(auto)]

ghost use Rattle.std.specs.Prelude.{◌≡◌, ◌&&◌, IfSome};
ghost use Rattle.std.specs.Bool.{then_some};
ghost use Rattle.rules.specs.Record.{link_limit};
ghost use Rattle.rules.specs.Rewrite.{relaxing};
ghost use Rattle.relax.specs.Answers.{relaxed_of};
ghost use Rattle.answers.specs.Layout.{relaxed_layout};
ghost use Rattle.plain.specs.Plain.{is_plain};
ghost use Rattle.jitamoro_pass.specs.Layout.{pass_of, words_of, words_left, step_layout, words_step};
ghost use Rattle.jitamoro_pass.specs.Parts.{calm};

use answers::RelaxedAnswer;
use pass::{Pass, Step, Stepped};
use refusal::Refusal;
use rules::Relocation;

// Last offset, end of the last window, pending, ended: the caller's four words.
// Kept: the last two are no bools, since a caller may hand in any words.
#[repr(C)]
#[derive(Clone, Copy, Debug, Default, PartialEq, Eq, Hash)]
pub struct PassWords {
    pub last: u64,
    pub window: u64,
    pub pending: u64,
    pub ended: u64,
}

// Whether the record was skipped, and what relaxing answered. A refusal stands in `relaxed`. C and Rust have a bool, at
// the first byte of `skipped`.
// Kept: a number here, so that no padding is copied: with a bool a step takes 6 instructions more.
#[repr(C)]
#[derive(Clone, Copy, Debug, Default, PartialEq, Eq, Hash)]
pub struct StepAnswer {
    pub skipped: u64,
    pub relaxed: RelaxedAnswer,
}

impl PassWords {
    // What relaxing answers for a plain record, if the pass is calm.
    #[tactic(auto, using(crate::proofs::Words::passes_by))]
    pub fn settle(self, section: &[u8], rel: Relocation) -> Option<RelaxedAnswer>
        ensures value { result ≡ then_some (calm (pass_of self) rel.offset && is_plain section.now rel) (relaxed_layout (relaxed_of (relaxing link_limit section.now rel))) }
        ensures passes_by { IfSome result (λ answer. (record { skipped = 0; relaxed = answer }, record self { last = rel.offset }, section.now) ≡ words_step self section.now rel) }
    {
        if self.is_calm(rel.offset) {
            plain::settle(section, rel)
        } else {
            None
        }
    }

    // Neither ended nor with a skip pending, and the offset doesn't fall.
    fn is_calm(self, offset: u64) -> bool
        ensures { result ≡ calm (pass_of self) offset }
    {
        let pass = Pass::from(self);
        !pass.ended & !pass.skip & (pass.last <= offset)
    }

    // A plain record: its window is empty, so that only the last offset changes.
    pub fn pass_by(&mut self, offset: u64, relaxed: RelaxedAnswer) -> StepAnswer
        ensures value { result ≡ record { skipped = 0; relaxed = relaxed } }
        ensures words_after { self.new ≡ record self.old { last = offset } }
    {
        self.last = offset;
        StepAnswer {
            skipped: 0,
            relaxed,
        }
    }

    // Any record. A refusal changes nothing.
    pub fn finish(&mut self, stepped: Stepped) -> StepAnswer
        ensures value { result ≡ step_layout stepped.step }
        ensures words_after { self.new ≡ words_left self.old stepped }
    {
        if stepped.step.is_ok() {
            *self = PassWords::from(stepped.pass);
        }
        StepAnswer::from(stepped.step)
    }
}

impl From<PassWords> for Pass {
    ghost from_gives = { λ words pass. pass ≡ pass_of words };

    fn from(words: PassWords) -> Pass {
        Pass {
            last: words.last,
            window: words.window,
            skip: words.pending != 0,
            ended: words.ended != 0,
        }
    }
}

impl From<Pass> for PassWords {
    ghost from_gives = { λ pass words. words ≡ words_of pass };

    fn from(pass: Pass) -> PassWords {
        PassWords {
            last: pass.last,
            window: pass.window,
            pending: u64::from(pass.skip),
            ended: u64::from(pass.ended),
        }
    }
}

impl From<Result<Step, Refusal>> for StepAnswer {
    ghost from_gives = { λ step answer. answer ≡ step_layout step };

    fn from(step: Result<Step, Refusal>) -> StepAnswer {
        let (skipped, relaxed) = match step {
            Ok(Step::Took(relaxed)) => (0, Ok(relaxed)),
            Ok(Step::Skipped) => (1, Ok(None)),
            Err(refusal) => (0, Err(refusal)),
        };
        StepAnswer {
            skipped,
            relaxed: RelaxedAnswer::from(relaxed),
        }
    }
}
