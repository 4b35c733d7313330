// value_flags.rs: the five predicates that document 01's rules use, over 01's own flag number.
// The Rust's bits are others (docs/DIFFERENCES.md).
#![tactic(auto)]

ghost use Rattle.std.specs.Prelude.{◌≡◌, ◌<◌, not};
ghost use Rattle.rules.specs.Record.{has, is_n, absolute, dynamic, ifunc, is_k};
ghost use Rattle.value_flags.specs.Flags.{Read};

use refusal::Refusal;

// 01: "1 non-interposable, 2 absolute, 4 dynamic, 8 ifunc, summed".
const NON_INTERPOSABLE: u8 = 1;

const ABSOLUTE: u8 = 2;

const DYNAMIC: u8 = 4;

const IFUNC: u8 = 8;

#[derive(Clone, Copy, Debug, PartialEq, Eq, Hash)]
pub struct ValueFlags {
    pub bits: u8,
}

// The flags of a number of document 01, or refusal 3.
impl TryFrom<u8> for ValueFlags {
    type Error = Refusal;

    ghost try_from_gives = { Read };

    #[tactic(auto, unfolding(rules::specs::Record::flag_number))]
    fn try_from(number: u8) -> Result<ValueFlags, Refusal> {
        if 15 < number {
            return Err(Refusal::FlagNumber);
        }
        Ok(ValueFlags { bits: number })
    }
}

impl ValueFlags {
    // Whether the flag of a weight is among the summands.
    fn contains(self, weight: u8) -> bool
        requires { 0 < weight }
        ensures { result ≡ has weight self.bits }
    {
        self.bits / weight % 2 == 1
    }

    pub fn is_dynamic(self) -> bool
        ensures { result ≡ dynamic self.bits }
    {
        self.contains(DYNAMIC)
    }

    pub fn is_ifunc(self) -> bool
        ensures { result ≡ ifunc self.bits }
    {
        self.contains(IFUNC)
    }

    // K: the address is known at link time, and it is an address.
    pub fn has_link_time_address(self) -> bool
        ensures { result ≡ is_k self.bits }
    {
        !self.is_ifunc() & !self.is_dynamic() & !self.is_absolute()
    }

    pub fn is_absolute(self) -> bool
        ensures { result ≡ absolute self.bits }
    {
        self.contains(ABSOLUTE)
    }

    pub fn is_interposable(self) -> bool
        ensures { result ≡ not (is_n self.bits) }
    {
        !self.contains(NON_INTERPOSABLE)
    }
}
