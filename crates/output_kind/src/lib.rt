// output_kind.rs: the six output kinds, and the four predicates that document 01's rules use.
#![tactic(auto)]

ghost use Rattle.std.specs.Prelude.{◌≡◌};
ghost use Rattle.rules.specs.Record.{is_f, is_s, is_e, is_p};
ghost use Rattle.output_kind.specs.Output.{output_number, Read};

use refusal::Refusal;

#[derive(Clone, Copy, Debug, PartialEq, Eq, Hash)]
pub enum RelocationModel {
    Fixed,
    PositionIndependent,
}

#[derive(Clone, Copy, Debug, PartialEq, Eq, Hash)]
pub enum OutputKind {
    StaticExecutable(RelocationModel),
    DynamicExecutable(RelocationModel),
    SharedObject,
    PartialLink,
}

// The kind of a number of document 01, or refusal 4.
impl TryFrom<u8> for OutputKind {
    type Error = Refusal;

    ghost try_from_gives = { Read };

    #[tactic(auto, unfolding(rules::specs::Record::output_kind_of))]
    fn try_from(number: u8) -> Result<OutputKind, Refusal> {
        match number {
            0 => Ok(OutputKind::StaticExecutable(RelocationModel::Fixed)),
            1 => Ok(OutputKind::StaticExecutable(RelocationModel::PositionIndependent)),
            2 => Ok(OutputKind::DynamicExecutable(RelocationModel::Fixed)),
            3 => Ok(OutputKind::DynamicExecutable(RelocationModel::PositionIndependent)),
            4 => Ok(OutputKind::SharedObject),
            5 => Ok(OutputKind::PartialLink),
            _ => Err(Refusal::OutputKindNumber),
        }
    }
}

impl OutputKind {
    // E
    pub fn is_executable(self) -> bool
        ensures { result ≡ is_e (output_number self) }
    {
        matches!(
            self,
            OutputKind::StaticExecutable(_) | OutputKind::DynamicExecutable(_)
        )
    }

    // S
    pub fn is_static_executable(self) -> bool
        ensures { result ≡ is_s (output_number self) }
    {
        matches!(self, OutputKind::StaticExecutable(_))
    }

    // P
    pub fn is_position_independent(self) -> bool
        ensures { result ≡ is_p (output_number self) }
    {
        matches!(
            self,
            OutputKind::SharedObject
                | OutputKind::DynamicExecutable(RelocationModel::PositionIndependent)
                | OutputKind::StaticExecutable(RelocationModel::PositionIndependent)
        )
    }

    // F
    pub fn has_fixed_load_address(self) -> bool
        ensures { result ≡ is_f (output_number self) }
    {
        matches!(
            self,
            OutputKind::StaticExecutable(RelocationModel::Fixed)
                | OutputKind::DynamicExecutable(RelocationModel::Fixed)
        )
    }
}
