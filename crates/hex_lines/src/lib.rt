// Lines of hexadecimal digits, as the replay programs read them from standard input: two small letters or digits to a
// byte, numbers low byte first; and the counts that those programs print.
#![tactic(auto)]

ghost use Rattle.std.specs.Prelude.{◌≡◌, ℕ, ◌+◌, ◌%◌, ◌^◌, ◌<◌, ◌++◌, codes, decimal, length, if◌then◌else◌, Some};
ghost use Rattle.std.specs.List.{FoldsTo};
ghost use Rattle.hex_lines.specs.Hex.{Says, digit_of, byte_at, bytes_from, four_at, eight_at};

use std::fmt::{self, Write};

const STDIN_FILENO: i32 = 0;

const STDOUT_FILENO: i32 = 1;

// More lines than any list has, since a loop over input needs an end.
const MAX_LINES: u64 = 1_000_000;

// The value of a hexadecimal digit, or 0.
// Kept: by hand, since the kit's hex takes capital letters too and refuses what isn't a digit.
#[tactic(auto, unfolding(crate::specs::Hex::digit_of))]
fn digit(b: u8) -> u8
    ensures { (result ≡ digit_of b) × (result < 16) }
{
    match b {
        b'0'..=b'9' => b - b'0',
        b'a'..=b'f' => b - b'a' + 10,
        _ => 0,
    }
}

// A line's digits.
#[derive(Clone, Copy)]
pub struct Line<'a> {
    pub digits: &'a [u8],
}

impl Line<'_> {
    // Byte `at`, or 0 past the line's end.
    #[tactic(auto, unfolding(crate::specs::Hex::byte_at))]
    pub fn byte(self, at: usize) -> u8
        ensures { result ≡ byte_at self.entry.digits.now at }
    {
        let digits = self.digits;
        if at < digits.len() / 2 {
            digit(digits[2 * at]) * 16 + digit(digits[2 * at + 1])
        } else {
            0
        }
    }

    // Byte `at + k`.
    #[tactic(auto, using(crate::proofs::Past::byte_past))]
    fn byte_from(self, at: usize, k: usize) -> u8
        ensures { result ≡ byte_at self.entry.digits.now (at + k) }
    {
        self.byte(at.saturating_add(k))
    }

    // Fills `out` with the bytes from `at` on, 0 past the line's end.
    pub fn fill_from(self, at: usize, out: &mut [u8])
        ensures { out.new ≡ bytes_from self.entry.digits.now at (length out.old) }
    {
        for (k, byte) in out.iter_mut().enumerate() {
            *byte = self.byte_from(at, k);
        }
    }

    // The `N` bytes from `at` on, 0 past the line's end.
    pub fn bytes_at<const N: usize>(self, at: usize) -> [u8; N]
        ensures { result ≡ bytes_from self.entry.digits.now at N }
    {
        let mut bytes = [0; N];
        self.fill_from(at, &mut bytes);
        bytes
    }

    // The four bytes from `at` on, as a number.
    pub fn u32_at(self, at: usize) -> u32
        ensures { result ≡ four_at self.entry.digits.now at }
    {
        u32::from_le_bytes(self.bytes_at(at))
    }

    // The eight bytes from `at` on, as a number.
    pub fn u64_at(self, at: usize) -> u64
        ensures { result ≡ eight_at self.entry.digits.now at }
    {
        u64::from_le_bytes(self.bytes_at(at))
    }
}

// Calls `each` with the lines of standard input in turn, MAX_LINES of them at most, and answers how many there were. A line
// has `N` characters, its end among them.
pub fn for_each_line<const N: usize, F: FnMut(Line<'_>)>(mut each: F) -> u64
    requires callable { F.IsAlwaysCallable each }
    requires fits { N < 2 ^ 63 }
    ensures { (lines : _) × (last : F) × FoldsTo (λ p x q. F.step p x tt q) each lines last × (length lines ≡ result) }
{
    for turn in 0..MAX_LINES {
        let mut line = [0; N];
        if io::read_full(STDIN_FILENO, &mut line) == 0 {
            return turn;
        }
        each(Line { digits: &line });
    }
    MAX_LINES
}

// A line of a report: what is counted, and how many of it there are.
#[derive(Clone, Copy)]
pub struct Count<'a> {
    pub name: &'a str,
    pub count: u64,
}

impl<'a> Count<'a> {
    // None yet. Of every count the text has as few decimal digits as hold it, the most significant first.
    #[tactic(auto, using(crate::proofs::Decimal::decimal_says))]
    pub fn new(name: &'a str) -> Self
        ensures name { result.name.now ≡ name.now }
        ensures none { result.count ≡ 0 }
        ensures digits { (n : ℕ) → n < 2 ^ 64 → Says (decimal n) n }
    {
        Count { name, count: 0 }
    }

    // One more where it agrees, modulo 2^64.
    pub fn more(&mut self, agrees: bool)
        ensures count { self.new.count ≡ (if agrees then (self.old.count + 1) % 2 ^ 64 else self.old.count) }
        ensures name { self.new.name ≡ self.old.name }
    {
        self.count = self.count.wrapping_add(u64::from(agrees));
    }

    // Prints the line. That it is printed is no promise's: no contract speaks of what is written, and what can't be is lost.
    // Kept: not by `println!`, whose error would end the program with another status, or be thrown away too.
    pub fn print(self) {
        let _ = writeln!(Stdout, "{self}");
    }
}

// Standard output, as the case program writes to it.
#[derive(Drop)]
struct Stdout;

impl fmt::Write for Stdout {
    fn write_str(&mut self, s: &str) -> fmt::Result {
        io::write_all(STDOUT_FILENO, s.as_bytes());
        Ok(())
    }
}

impl fmt::Display for Count<'_> {
    ghost output = { λ c. Some (c.name.now ++ (codes " " ++ decimal c.count)) };

    fn fmt<W: fmt::Write>(&self, f: &mut fmt::Formatter<W>) -> fmt::Result {
        let name = self.name;
        let count = self.count;
        write!(f, "{name} {count}")
    }
}
