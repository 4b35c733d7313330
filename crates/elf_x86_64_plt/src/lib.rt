// elf_x86_64.rs: PLT entries and section padding.
#![tactic(auto)]

ghost use Rattle.std.specs.Prelude.{◌≡◌, ◌+◌, ◌≤◌, true, length, replicate};
ghost use Rattle.rules.specs.Range.{signed, byte_range, Keeps, LowPart};
ghost use Rattle.rules.specs.Plt.{plt_answer, plt_bytes, padding, displacement};
ghost use Rattle.rules.specs.Records.{PltWorked};

use refusal::Refusal;

// endbr64; jmp *{relative GOT address}(%rip); nopw 0x0(%rax,%rax,1)
const PLT_ENTRY_TEMPLATE: &[u8] =
    b"\xf3\x0f\x1e\xfa\xff\x25\x00\x00\x00\x00\x66\x0f\x1f\x44\x00\x00";

// Writes a PLT entry that jumps through the GOT entry. Refusals: 8 where the buffer isn't 16 bytes
// long, which changes nothing; 9 where the displacement doesn't fit 32 bits, which leaves the blank
// template. It fits exactly where its low four bytes, read back with their sign, are the displacement.
#[tactic(auto, using(rules::proofs::Records::plt_worked, rules::proofs::Widths::keeps, rules::proofs::Widths::four, rules::proofs::Widths::low_part), unfolding(rules::specs::Plt::plt_answer, rules::specs::Plt::plt_bytes, rules::specs::Plt::template, rules::specs::Plt::in_reach, rules::specs::Range::byte_range, rules::specs::Range::signed64))]
pub fn write_plt_entry(
    plt_entry: &mut [u8],
    got_address: u64,
    plt_address: u64,
) -> Result<(), Refusal>
    ensures result_value { result ≡ plt_answer plt_entry.old got_address plt_address }
    ensures plt_entry_after { plt_entry.new ≡ plt_bytes plt_entry.old got_address plt_address }
    ensures keeps { Keeps 4 signed (byte_range 4 signed) }
    ensures low_part { LowPart 4 }
    ensures plt_worked { PltWorked }
{
    if plt_entry.len() != 16 {
        return Err(Refusal::PltEntrySize);
    }
    plt_entry.copy_from_slice(PLT_ENTRY_TEMPLATE);
    let displacement = plt_displacement(got_address, plt_address);
    let Ok(offset) = i32::try_from(displacement.cast_signed()) else {
        return Err(Refusal::PltOutOfReach);
    };
    plt_entry[6..10].copy_from_slice(&offset.to_le_bytes());
    Ok(())
}

// From the end of the jump at byte 10 of the entry to the GOT entry.
#[tactic(auto, using(laws::proofs::Wrap::wraps), unfolding(rules::specs::Plt::displacement))]
fn plt_displacement(got_address: u64, plt_address: u64) -> u64
    ensures { result ≡ displacement got_address plt_address }
{
    got_address.wrapping_sub(plt_address.wrapping_add(10))
}

// Executable sections are padded with int3, other sections with zeros.
#[tactic(auto, unfolding(rules::specs::Plt::padding))]
pub fn fill_section_padding(buf: &mut [u8], executable: bool)
    ensures { buf.new ≡ padding executable (length buf.old) }
{
    if executable {
        fill_nop_padding(buf);
    } else {
        fill(buf, 0);
    }
}

#[tactic(auto, unfolding(rules::specs::Plt::padding))]
fn fill_nop_padding(buf: &mut [u8])
    ensures { buf.new ≡ padding true (length buf.old) }
{
    fill(buf, 0xcc);
}

// The Rust's `buf.fill(byte)`. Up to 64 bytes, as most padding has, go by two runs of stores, which may overlap.
// Kept: in one call of the library's `fill` 7 to 64 bytes take 47 to 50 instructions, where this takes 30 and the Rust 28 to 31.
fn fill(buf: &mut [u8], byte: u8)
    ensures { buf.new ≡ replicate (length buf.old) byte }
{
    match buf.len() {
        0..=16 => fill_short(buf, byte),
        17..=32 => fill_ends::<16>(buf, byte),
        33..=64 => fill_ends::<32>(buf, byte),
        _ => fill_long(buf, byte),
    }
}

fn fill_short(buf: &mut [u8], byte: u8)
    requires { length buf.old ≤ 16 }
    ensures { buf.new ≡ replicate (length buf.old) byte }
{
    match buf.len() {
        0..=1 => buf.fill(byte),
        2..=4 => fill_ends::<2>(buf, byte),
        5..=8 => fill_ends::<4>(buf, byte),
        _ => fill_ends::<8>(buf, byte),
    }
}

// A call of its own, so that a short padding sets up no frame.
#[inline(never)]
fn fill_long(buf: &mut [u8], byte: u8)
    ensures { buf.new ≡ replicate (length buf.old) byte }
{
    buf.fill(byte);
}

// A run of K bytes at each end.
fn fill_ends<const K: usize>(buf: &mut [u8], byte: u8)
    requires { (K ≤ length buf.old) × (length buf.old ≤ K + K) }
    ensures { buf.new ≡ replicate (length buf.old) byte }
{
    let n = buf.len();
    buf[..K].fill(byte);
    buf[n - K..].fill(byte);
}
