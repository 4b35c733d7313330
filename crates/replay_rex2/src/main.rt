// Decodes a list of encodings that llvm-mc made, and prints how many there are and how many decode to something else than they name.
// A line has 17 bytes in hexadecimal: operation (0 mov, 1 add, 2 sub, 3 cmp, 4 lea), source (0 slot, 1 immediate, 2 address),
// width (1 is 64 bits), register, length, and the encoding (12 bytes, the rest 0), whose field is 0x11223344.
#![tactic(auto)]

use hex_lines::{Count, Line};
use machine_step::{Action, Op, Register, Source};

// The action that a line names; an operation above 4 is taken for sub.
fn action(line: Line) -> Option<Action> {
    let source = match line.byte(1) {
        0 => Source::Slot,
        1 => Source::Imm,
        2 => Source::Addr,
        _ => return None,
    };
    let wide = line.byte(2) == 1;
    let number = line.byte(3);
    if 32 <= number {
        return None;
    }
    let register = Register { number };
    let alu = |op, target| Action::Alu {
        op,
        wide,
        target,
        first: register,
        source,
        sets: true,
    };
    match line.byte(0) {
        0 | 4 => Some(Action::Move {
            wide,
            target: register,
            source,
        }),
        1 => Some(alu(Op::Add, Some(register))),
        3 => Some(alu(Op::Sub, None)),
        _ => Some(alu(Op::Sub, Some(register))),
    }
}

// Whether the encoding decodes to the form that the line names, and its last four bytes are the field.
fn agrees(line: Line) -> bool {
    let code: [u8; 12] = line.bytes_at(5);
    let form = machine_step::decode(&code);
    let field = line.u32_at(1 + usize::from(form.long));
    action(line).is_some_and(|action| form.action == Some(action))
        && form.long == line.byte(4)
        && field == 0x1122_3344
}

// Kept: alike in the four programs that replay; replay_relax says why it is no plainer as one.
fn main() {
    let mut differ = Count::new("differ");
    let count = hex_lines::for_each_line::<35, _>(|line| differ.more(!agrees(line)));
    let encodings = Count {
        name: "encodings",
        count,
    };
    encodings.print();
    differ.print();
}
