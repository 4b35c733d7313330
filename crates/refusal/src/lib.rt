// The refusals of the documents, by names, with what each says.
#![tactic(auto)]

ghost use Rattle.std.specs.Prelude.{◌≡◌};
ghost use Rattle.refusal.specs.Numbers.{number_of};

use thiserror::Error;

#[derive(Clone, Copy, Debug, PartialEq, Eq, Hash, Error)]
pub enum Refusal {
    #[error("the section is longer than 268,435,456 bytes")]
    SectionTooLong = 1,
    #[error("the offset lies past the section's end")]
    OffsetAboveLength = 2,
    #[error("the flag number is above 15")]
    FlagNumber = 3,
    #[error("the output kind is above 5")]
    OutputKindNumber = 4,
    #[error("the kind has no such instruction offset, or there is no such kind")]
    InstructionOffset = 5,
    #[error("the bytes to rewrite don't lie wholly in the section")]
    WindowNotInside = 6,
    #[error("the relocation type isn't among the 39 that are known")]
    UnknownType = 7,
    #[error("the buffer for a PLT entry isn't 16 bytes long")]
    PltEntrySize = 8,
    #[error("the GOT entry is out of reach of the PLT entry")]
    PltOutOfReach = 9,
    #[error("there is no mark 52 58 where a record should begin")]
    WrongMark = 10,
    #[error("the file ends inside a record")]
    FileEndsInside = 11,
    #[error("the executable byte is neither 0 nor 1")]
    ExecutableByte = 12,
    #[error("the record's section is longer than 4,096 bytes")]
    RecordTooLong = 13,
    #[error("the value lies outside the field's range")]
    ValueOutOfRange = 15,
    #[error("the field's four bytes don't lie wholly in the section")]
    FieldNotInside = 16,
    #[error("the pass has ended")]
    PassEnded = 21,
    #[error("the offset lies below the last record's")]
    OffsetBelowLast = 22,
    #[error("the bytes to rewrite begin before the end of those rewritten last")]
    WindowOverlap = 23,
    #[error("the end is asked while a record is still to be skipped")]
    SkipPending = 24,
}

impl Refusal {
    // The documents' number.
    pub fn number(self) -> u8
        ensures { result ≡ number_of self }
    {
        self as u8
    }
}
