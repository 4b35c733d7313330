// Document 02, card 1: the tally that is kept with a pass. Its figures are lent, so that a step copies none of them.
#![tactic(auto)]

ghost use Rattle.std.specs.Prelude.{◌≡◌, ◌<◌, if◌then◌else◌};
ghost use Rattle.x86_64_kind.specs.Kinds.{shape_of};
ghost use Rattle.x86_64_kind.specs.declared.RelaxationKind.TheVariants.{NoOp};
ghost use Rattle.tally.specs.Tally.{none_at, fresh_tally, counted, tallied};
ghost use Rattle.tally.specs.Walk.{Tallies};
ghost use Rattle.tally.specs.Worked.{TallyWorked};

use pass::Step;
use refusal::Refusal;
use x86_64_kind::RelaxationKind;

// Places of the figures: those of the kinds are 0 to 18.
// Kept: numbers, since the figures are 22 words of the caller's.
const NONE: usize = 19;

const SKIPPED: usize = 20;

const BYTES: usize = 21;

#[repr(C)]
#[derive(Clone, Copy, Debug, Default, PartialEq, Eq, Hash)]
pub struct Tally {
    pub figures: [u64; 22],
}

impl Tally {
    // The tally of a pass before its first record. The contract also says what holds of every walk with a tally, with a
    // worked one.
    #[tactic(auto, using(crate::proofs::Walk::tallies, crate::proofs::Worked::worked))]
    pub fn fresh() -> Tally
        ensures figures_value { result.figures ≡ fresh_tally }
        ensures tallies { Tallies }
        ensures tally_worked { TallyWorked }
    {
        Tally::default()
    }

    // Counts a step. A refused one changes no figure.
    #[tactic(auto, unfolding(crate::specs::Tally::tallied))]
    pub fn count(&mut self, step: Result<Step, Refusal>)
        ensures { self.new.figures ≡ tallied self.old.figures step }
    {
        match step {
            Ok(Step::Took(None)) => self.add(NONE, 0),
            Ok(Step::Took(Some(relaxed))) => {
                let kind = relaxed.relaxation.kind;
                let window = relaxed.relaxation.claim();
                self.add(kind.number() as usize, window.size);
            }
            Ok(Step::Skipped) => self.add(SKIPPED, 0),
            Err(_) => {}
        }
    }

    // Counts a record that became NoOp or none; which of them is no branch in the machine code.
    pub fn count_no_op(&mut self, chosen: bool)
        ensures { self.new.figures ≡ counted (if chosen then (shape_of NoOp).number else none_at) 0 self.old.figures }
    {
        let place = if chosen {
            RelaxationKind::NoOp.number() as usize
        } else {
            NONE
        };
        self.add(place, 0);
    }

    // A record more at a place, and the bytes of its window.
    fn add(&mut self, place: usize, bytes: u64)
        requires { place < 21 }
        ensures { self.new.figures ≡ counted place bytes self.old.figures }
    {
        self.figures[place] = self.figures[place].wrapping_add(1);
        self.figures[BYTES] = self.figures[BYTES].wrapping_add(bytes);
    }
}
