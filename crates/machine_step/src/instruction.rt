// What an instruction does, in the terms of rules/specs/Machine.antt.

ghost use Rattle.std.specs.Prelude.{◌<◌, ◌≤◌};

// One of the 32 registers.
#[derive(Clone, Copy, Debug, PartialEq, Eq, Hash)]
pub struct Register {
    pub number: u8,
    ghost among_32: { number < 32 },
}

// Where an operand comes from: the slot at next + field, the field itself, or next + field.
#[derive(Clone, Copy, Debug, PartialEq, Eq, Hash)]
pub enum Source {
    Slot,
    Imm,
    Addr,
}

#[derive(Clone, Copy, Debug, PartialEq, Eq, Hash)]
pub enum Op {
    Add,
    Sub,
}

// What an instruction does: it moves a value of a size into a register; it operates, at a size, on a
// register and a value, its result goes to a target or nowhere, and it sets the flags or not; it calls;
// or it jumps.
#[derive(Clone, Copy, Debug, PartialEq, Eq, Hash)]
pub enum Action {
    Move {
        wide: bool,
        target: Register,
        source: Source,
    },
    Alu {
        op: Op,
        wide: bool,
        target: Option<Register>,
        first: Register,
        source: Source,
        sets: bool,
    },
    Call(Source),
    Jump(Source),
}

// An instruction's action, if the machine has a step for it, and the count of its bytes, of which the last
// four are its field.
#[derive(Clone, Copy, Debug, PartialEq, Eq, Hash)]
pub struct Form {
    pub action: Option<Action>,
    pub long: u8,
    ghost least: { 5 ≤ long },
    ghost most: { long ≤ 8 },
}
