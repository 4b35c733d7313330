// Replays lists of relaxations against the port, and prints how many of each function agree. A line
// has 140 bytes in hexadecimal, numbers low byte first. Its first byte names the function:
//   1 choosing, 2 rewriting, 3 relaxing, 6 what a relaxation of any new type tells: the Rust's answers
//   (tests/differential, `replay_list`)
//   4 relaxing: llvm-mc's encodings, 5 relaxing: document 01's records (tests/encodings)
// Then 1 type (4; of rewriting: kind, instruction offset, 0, 0), 5 flags, 6 output kind,
// 7 executable (5 to 7 of function 6: kind, instruction offset, mandatory), 8 offset (8), 16 address (8), 24 addend (8),
// 32 section length, 33 section (40); and the answer: 73 refusal, 74 whether there is more, 75 kind, 76 instruction offset,
// 77 new type (4), 81 mandatory, 82 skip, 83 needs_got_fallback, 84 new offset (8),
// 92 new addend (8), 100 section (40). What an answer doesn't have is 0.
#![tactic(auto)]

use answers::{ChoiceAnswer, RelaxedAnswer};
use elf_x86_64_new_relaxation::new_relaxation;
use elf_x86_64_relaxation::Relaxation;
use hex_lines::{Count, Line};
use refusal::Refusal;
use relax::relax;
use rules::Relocation;
use x86_64_apply::{Moved, apply};
use x86_64_kind::RelaxationKind;

// The function that a line is of, in the order of their numbers.
#[derive(Clone, Copy)]
enum Function {
    Choosing,
    Rewriting,
    Relaxing,
    Encodings,
    Records,
    Telling,
}

impl Function {
    fn from_number(number: u8) -> Option<Function> {
        match number {
            1 => Some(Function::Choosing),
            2 => Some(Function::Rewriting),
            3 => Some(Function::Relaxing),
            4 => Some(Function::Encodings),
            5 => Some(Function::Records),
            6 => Some(Function::Telling),
            _ => None,
        }
    }

    // What the port answers to a line, and leaves in its section.
    fn answer(self, line: Line, section: &mut [u8]) -> RelaxedAnswer {
        match self {
            Function::Choosing => placeless(new_relaxation(section, record_at(line))),
            Function::Rewriting => rewriting(line, section),
            Function::Relaxing | Function::Encodings | Function::Records => {
                relax(section, record_at(line)).into()
            }
            Function::Telling => placeless(Ok(Some(relaxation_at(line)))),
        }
    }

    // Whether that is what the line says.
    fn agrees(self, line: Line) -> bool {
        let mut section = line.bytes_at::<40>(33);
        let lent = section.get_mut(..usize::from(line.byte(32)));
        let agrees = lent.is_some_and(|lent| self.answer(line, lent) == answer_at(line));
        agrees & (section == line.bytes_at(100))
    }
}

fn record_at(line: Line) -> Relocation {
    Relocation {
        r_type: line.u32_at(1),
        offset: line.u64_at(8),
        flags: line.byte(5),
        output_kind: line.byte(6),
        executable: line.byte(7) == 1,
        address: line.u64_at(16),
        addend: line.u64_at(24).cast_signed(),
    }
}

// Of function 6.
fn relaxation_at(line: Line) -> Relaxation {
    Relaxation {
        kind: RelaxationKind::from_number(line.byte(5), line.byte(6)),
        new_type: line.u32_at(1),
        mandatory: line.byte(7) == 1,
    }
}

// A choice has no place.
fn placeless(choice: Result<Option<Relaxation>, Refusal>) -> RelaxedAnswer {
    RelaxedAnswer {
        choice: choice.into(),
        ..RelaxedAnswer::default()
    }
}

// Rewriting answers no choice, but that there is more.
fn rewriting(line: Line, section: &mut [u8]) -> RelaxedAnswer {
    let kind = RelaxationKind::from_number(line.byte(1), line.byte(2));
    let addend = line.u64_at(24).cast_signed();
    match apply(kind, section, line.u64_at(8), addend) {
        Ok(Moved { offset, addend }) => RelaxedAnswer {
            choice: ChoiceAnswer {
                head: 0x100,
                new_type: 0,
            },
            offset,
            addend,
        },
        Err(refusal) => Err(refusal).into(),
    }
}

// The answer that a line says. Its head's bytes are the line's 73 to 76, and 81 to 83.
fn answer_at(line: Line) -> RelaxedAnswer {
    let [refusal, more, kind, inst_offset] = line.bytes_at::<4>(73);
    let [mandatory, skip, fallback] = line.bytes_at::<3>(81);
    let head = [
        refusal,
        more,
        kind,
        inst_offset,
        mandatory,
        skip,
        fallback,
        0,
    ];
    RelaxedAnswer {
        choice: ChoiceAnswer {
            head: u64::from_le_bytes(head),
            new_type: line.u32_at(77),
        },
        offset: line.u64_at(84),
        addend: line.u64_at(92).cast_signed(),
    }
}

// Kept: alike in the four programs that replay. As one function of hex_lines (tried) it is no plainer: the counts lie in an
// array beside that of their names, a line is counted at two places, and how many lines were read is promised no more.
fn main() {
    // How many lines of each function agree, and how many of any function don't.
    let mut agree = [
        "choosing",
        "rewriting",
        "relaxing",
        "llvm-mc encodings",
        "document 01 records",
        "what a relaxation tells",
    ]
    .map(Count::new);
    let mut differ = Count::new("differ");
    hex_lines::for_each_line::<281, _>(|line| {
        let function = Function::from_number(line.byte(0));
        let agrees = function.is_some_and(|function| function.agrees(line));
        if let Some(function) = function {
            agree[function as usize].more(agrees);
        }
        differ.more(!agrees);
    });
    for count in agree {
        count.print();
    }
    differ.print();
}
