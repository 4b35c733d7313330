// The case file of document 01: the records of a file, one after the other.
#![tactic(auto)]

ghost use Rattle.std.specs.Prelude.{◌≡◌, ◌+◌, ◌≤◌, length, take, drop, option_map, IfOk};
ghost use Rattle.std.specs.Result.{ForOk};
ghost use Rattle.std.specs.Int.{w64, from_le_bytes};
ghost use Rattle.case_read.specs.Case.{answer_of};
ghost use Rattle.case_read.specs.Reading.{first, read_at, rest_after, records};

mod case;

pub use case::Case;
use refusal::Refusal;
use rules::Relocation;
use std::marker::Model;

// The record at a place of a file, if one stands there. Refusals 11, 10, 12, 13, 11.
pub fn read_at(file: &[u8], at: usize) -> Option<Result<Case<'_>, Refusal>>
    ensures { option_map answer_of result ≡ read_at file.now at }
{
    if file.len() <= at {
        return None;
    }
    Some(first(&file[at..]))
}

// The records of a file, one after the other; none after one that is refused.
#[derive(Drop)]
pub struct Records<'a> {
    rest: &'a [u8],
}

// A clause sees the records that are still to come.
impl<'a> Model for Records<'a> {
    ghost use Rattle.std.specs.Prelude.{List};
    ghost use Rattle.rules.specs.Answer.{Answer};
    ghost use Rattle.case_read.specs.Record.{Record};
    ghost use Rattle.case_read.specs.Reading.{records};

    ghost Value = { List (Answer Record) };

    ghost view = { λ r. records r.rest.now };
}

impl<'a> Records<'a> {
    #[tactic(auto, using(crate::proofs::Rest::few))]
    pub fn new(file: &'a [u8]) -> Self
        ensures value { result ≡ records file.now }
        ensures bound { length result ≤ length file.now }
    {
        Records { rest: file }
    }
}

impl<'a> Iterator for Records<'a> {
    ghost use Rattle.std.specs.Iterator.{YieldsFirstBy, item_count};

    type Item = Result<Case<'a>, Refusal>;

    ghost next_gives = { YieldsFirstBy answer_of (λ r. r) };

    ghost remaining = { item_count (λ r. r) };

    #[tactic(auto, using(crate::proofs::Rest::next, crate::proofs::Rest::no_more, crate::proofs::Rest::whole))]
    fn next(&mut self) -> Option<Result<Case<'a>, Refusal>> {
        let read = read_at(self.rest, 0)?;
        self.rest = rest_after(self.rest, &read);
        Some(read)
    }
}

// What is left after the first record.
fn rest_after<'a>(bytes: &'a [u8], read: &Result<Case<'_>, Refusal>) -> &'a [u8]
    requires { ForOk read.now (λ c. 26 + length c.section.now ≤ length bytes.now) }
    ensures { result.now ≡ rest_after bytes.now (answer_of read.now) }
{
    match read {
        Ok(case) => &bytes[case.size()..],
        Err(_) => &[],
    }
}

// The record at the start of these bytes.
#[tactic(auto, unfolding(crate::specs::Reading::first, rules::specs::Range::signed64))]
fn first(bytes: &[u8]) -> Result<Case<'_>, Refusal>
    ensures value { answer_of result ≡ first bytes.now }
    ensures within { IfOk result (λ c. 26 + length c.section.now ≤ length bytes.now) }
{
    if bytes.len() < 26 {
        return Err(Refusal::FileEndsInside);
    }
    let [0x52, 0x58, r_type, flags, output_kind, executable, ..] = *bytes else {
        return Err(Refusal::WrongMark);
    };
    if 1 < executable {
        return Err(Refusal::ExecutableByte);
    }
    let len = u16::from_le_bytes(part(bytes, 8)) as usize;
    if 4096 < len {
        return Err(Refusal::RecordTooLong);
    }
    let rel = Relocation {
        r_type: r_type.into(),
        offset: u16::from_le_bytes(part(bytes, 6)).into(),
        flags,
        output_kind,
        executable: executable == 1,
        address: u64::from_le_bytes(part(bytes, 10)),
        addend: i64::from_le_bytes(part(bytes, 18)),
    };
    Ok(Case {
        rel,
        section: bytes.get(26..26 + len).ok_or(Refusal::FileEndsInside)?,
    })
}

// The bytes of a number at a place.
fn part<const N: usize>(bytes: &[u8], at: usize) -> [u8; N]
    requires { at + N ≤ length bytes.now }
    ensures { result ≡ take N (drop at bytes.now) }
{
    bytes[at..at + N].try_into().unwrap()
}
