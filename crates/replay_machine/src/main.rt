// Replays single steps of a CPU against the twin of the machine, and prints how many there are and how many differ.
// A line has 311 bytes in hexadecimal, numbers low byte first: the instruction's length, its bytes (12, the rest 0), its
// address, the slot's address and contents (0 where there is none), 16 registers and the flags before, the same after,
// rip after, and the 8 bytes at rsp - 8 after (A5 in each where nothing is pushed). Where 128 is added to the length there
// must be no step (tests/machine/make_stopped.py), and what is after counts for nothing.
#![tactic(auto)]

ghost use Rattle.std.specs.Prelude.{◌<◌};

use hex_lines::{Count, Line};
use machine_step::{Flags, Push, State, Stepped};

fn flags(b: u8) -> Flags {
    Flags {
        cf: b & 1 != 0,
        pf: b & 2 != 0,
        af: b & 4 != 0,
        zf: b & 8 != 0,
        sf: b & 16 != 0,
        of: b & 32 != 0,
    }
}

// The sixteen registers from byte `at` on, sixteen that are 0, and the flags that follow.
fn state(line: Line, at: usize) -> State
    requires { at < 180 }
{
    let mut regs = [0; 32];
    for (i, reg) in regs[..16].iter_mut().enumerate() {
        *reg = line.u64_at(at + 8 * i);
    }
    State {
        regs,
        flags: flags(line.byte(at + 128)),
    }
}

// What the CPU did, which pushes 8 bytes below where rsp was. Where the twin pushes, what stands there is taken as pushed; it
// may be A5 in each byte then too.
fn stepped(line: Line, before: State, pushes: bool) -> Stepped {
    let top = line.u64_at(303);
    let push = Push {
        value: top,
        at: before.regs[4].wrapping_sub(8),
    };
    Stepped {
        state: state(line, 166),
        next: line.u64_at(295),
        push: (pushes || top != 0xa5a5_a5a5_a5a5_a5a5).then_some(push),
    }
}

// A line agrees where the whole instruction steps as the CPU did, its slot lies where the line says, if it has one, and
// one byte less of it gives no step; or where there must be no step, that there is none.
fn agrees(line: Line) -> bool {
    let bytes: [u8; 12] = line.bytes_at(1);
    let address = line.u64_at(13);
    let slot_address = line.u64_at(21);
    let before = state(line, 37);
    let step = |code: &[u8]| machine_step::step(code, address, line.u64_at(29), before);
    let n = line.byte(0);
    if 128 <= n {
        return step(&bytes).is_none();
    }
    let Some(code) = bytes.get(..usize::from(n)) else {
        return false;
    };
    let Some((_, less)) = code.split_last() else {
        return false;
    };
    step(less).is_none()
        && (slot_address == 0 || machine_step::slot_address(code, address) == slot_address)
        && step(code).is_some_and(|done| done == stepped(line, before, done.push.is_some()))
}

// Kept: alike in the four programs that replay; replay_relax says why it is no plainer as one.
fn main() {
    let mut differ = Count::new("differ");
    let count = hex_lines::for_each_line::<623, _>(|line| differ.more(!agrees(line)));
    let vectors = Count {
        name: "vectors",
        count,
    };
    vectors.print();
    differ.print();
}
