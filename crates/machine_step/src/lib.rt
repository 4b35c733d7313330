// The machine of rules/specs/Machine.antt as a function: one instruction on plain values, equal to the
// definition for every input. It exists so that the definition can be tried on a CPU's own steps.
#![tactic(auto)]

ghost use Rattle.std.specs.Prelude.{◌≡◌, ℕ, ◌+◌, ◌-◌, ◌*◌, ◌/◌, ◌%◌, ◌^◌, ◌<◌, ◌≤◌, true, false, slice_index};
ghost use Rattle.rules.specs.Machine as machine;
ghost use Rattle.rules.specs.Range.{bit as bit_of};
ghost use Rattle.machine_step.specs.Twin.{source_of, op_of, target_of, action_of, form_of, flags_of, state_by, state_of, memory_of, answer_of, from_slot, SlotHolds, code_slot, CodeSlotHolds};

mod instruction;

pub use instruction::{Action, Form, Op, Register, Source};

// The six status flags.
#[derive(Clone, Copy, Debug, PartialEq, Eq, Hash)]
pub struct Flags {
    pub cf: bool,
    pub pf: bool,
    pub af: bool,
    pub zf: bool,
    pub sf: bool,
    pub of: bool,
}

// The machine's state but for its memory.
#[derive(Clone, Copy, Debug, PartialEq, Eq, Hash)]
pub struct State {
    pub regs: [u64; 32],
    pub flags: Flags,
}

// The 8 bytes that a call writes, and where.
#[derive(Clone, Copy, Debug, PartialEq, Eq, Hash)]
pub struct Push {
    pub value: u64,
    pub at: u64,
}

// The state after a step, where it goes on, and what it pushed, if anything.
#[derive(Clone, Copy, Debug, PartialEq, Eq, Hash)]
pub struct Stepped {
    pub state: State,
    pub next: u64,
    pub push: Option<Push>,
}

// The operations on register k by their digits: add, sub, and cmp, which is sub without a target.
#[tactic(auto, unfolding(rules::specs::Machine::by_digit))]
fn by_digit(wide: bool, k: Register, source: Source, digit: u8) -> Option<Action>
    ensures { action_of result ≡ machine.by_digit wide k.number (source_of source) digit }
{
    let (op, target) = match digit {
        0 => (Op::Add, Some(k)),
        5 => (Op::Sub, Some(k)),
        7 => (Op::Sub, None),
        _ => return None,
    };
    Some(Action::Alu {
        op,
        wide,
        target,
        first: k,
        source,
        sets: true,
    })
}

// Opcode o with a RIP-relative operand, on register k or with digit n.
#[tactic(auto, unfolding(rules::specs::Machine::via_rip))]
fn via_rip(wide: bool, o: u8, k: Register, n: u8) -> Option<Action>
    ensures { action_of result ≡ machine.via_rip wide o k.number n }
{
    match (o, n) {
        (0x8b, _) => Some(Action::Move {
            wide,
            target: k,
            source: Source::Slot,
        }),
        (0x03, _) => by_digit(wide, k, Source::Slot, 0),
        (0x2b, _) => by_digit(wide, k, Source::Slot, 5),
        (0x3b, _) => by_digit(wide, k, Source::Slot, 7),
        (0x8d, _) => Some(Action::Move {
            wide,
            target: k,
            source: Source::Addr,
        }),
        (0xff, 2) => Some(Action::Call(Source::Slot)),
        (0xff, 4) => Some(Action::Jump(Source::Slot)),
        _ => None,
    }
}

// Opcode o with digit n on register k.
#[tactic(auto, unfolding(rules::specs::Machine::on_register))]
fn on_register(wide: bool, o: u8, k: Register, n: u8) -> Option<Action>
    ensures { action_of result ≡ machine.on_register wide o k.number n }
{
    match (o, n) {
        (0xc7, 0) => Some(Action::Move {
            wide,
            target: k,
            source: Source::Imm,
        }),
        (0x81, _) => by_digit(wide, k, Source::Imm, n),
        _ => None,
    }
}

// Bit k of a byte.
fn bit(x: u8, k: u32) -> u8
    requires { k < 8 }
    ensures { (result ≡ bit_of x k) × (result ≤ 1) }
{
    x >> k & 1
}

fn is_set(x: u8, k: u32) -> bool
    requires { k < 8 }
    ensures { result ≡ machine.is_set x k }
{
    bit(x, k) == 1
}

// What the bytes before an opcode say: their count, W and the high parts of the register numbers; and
// whether E8 and E9 are defined after them.
#[derive(Clone, Copy)]
struct Prefix {
    long: u8,
    wide: bool,
    high_r: u8,
    high_b: u8,
    branches: bool,
    ghost long_bound: { long ≤ 2 },
    ghost high_r_bound: { high_r ≤ 24 },
    ghost high_b_bound: { high_b ≤ 24 },
}

impl Prefix {
    // Opcode o with ModRM m after this prefix.
    #[tactic(auto, unfolding(rules::specs::Machine::opcode))]
    fn opcode(self, o: u8, m: u8) -> Form
        ensures { form_of result ≡ machine.opcode self.long self.wide self.high_r self.high_b self.branches o m }
    {
        let branch = match o {
            0xe8 => Some(Action::Call(Source::Addr)),
            0xe9 => Some(Action::Jump(Source::Addr)),
            _ => None,
        };
        if self.branches && branch.is_some() {
            return Form {
                action: branch,
                long: self.long + 5,
            };
        }
        let n = m >> 3 & 7;
        let r = Register {
            number: self.high_r + n,
        };
        let b = Register {
            number: self.high_b + (m & 7),
        };
        let action = match (m >> 6, m & 7) {
            (0, 5) => via_rip(self.wide, o, r, n),
            (3, _) => on_register(self.wide, o, b, n),
            _ => None,
        };
        Form {
            action,
            long: self.long + 6,
        }
    }
}

// The form that begins a code.
#[tactic(auto, unfolding(rules::specs::Machine::decode))]
pub fn decode(code: &[u8]) -> Form
    ensures { form_of result ≡ machine.decode code.now }
{
    let b0 = byte_at(code, 0);
    let b1 = byte_at(code, 1);
    let b2 = byte_at(code, 2);
    match b0 {
        0x40..=0x4f => {
            let prefix = Prefix {
                long: 1,
                wide: is_set(b0, 3),
                high_r: bit(b0, 2) << 3,
                high_b: bit(b0, 0) << 3,
                branches: true,
            };
            prefix.opcode(b1, b2)
        }
        0xd5 if is_set(b1, 7) => Form {
            action: None,
            long: 6,
        },
        0xd5 => {
            let prefix = Prefix {
                long: 2,
                wide: is_set(b1, 3),
                high_r: bit(b1, 6) << 4 | bit(b1, 2) << 3,
                high_b: bit(b1, 4) << 4 | bit(b1, 0) << 3,
                branches: false,
            };
            prefix.opcode(b2, byte_at(code, 3))
        }
        0x67 => Form {
            action: (b1 == 0xe8).then_some(Action::Call(Source::Addr)),
            long: 6,
        },
        _ => {
            let prefix = Prefix {
                long: 0,
                wide: false,
                high_r: 0,
                high_b: 0,
                branches: true,
            };
            prefix.opcode(b0, b1)
        }
    }
}

fn byte_at(code: &[u8], i: usize) -> u8
    ensures { result ≡ slice_index code.now i }
{
    code.get(i).copied().unwrap_or(0)
}

// The low bits of x at a width.
fn low(wide: bool, x: u64) -> u64
    ensures { (result ≡ x % machine.size wide) × (result < machine.size wide) }
{
    if wide { x } else { x & 0xffff_ffff }
}

#[tactic(auto, using(crate::proofs::Laws::low_byte_ones), unfolding(rules::specs::Machine::even_parity))]
fn parity(x: u64) -> bool
    ensures { result ≡ machine.even_parity x }
{
    (x & 0xff).count_ones() % 2 == 0
}

#[tactic(auto, unfolding(rules::specs::Machine::negative))]
fn negative(wide: bool, x: u64) -> bool
    ensures { result ≡ machine.negative wide x }
{
    let half = if wide { 1 << 63 } else { 1 << 31 };
    half <= x
}

// An instruction's field, and the address after the instruction.
#[derive(Clone, Copy)]
struct Field {
    value: u32,
    next: u64,
}

impl Field {
    // The last four bytes of the instruction of a form that begins `code`, which is loaded at `address`.
    #[tactic(auto, unfolding(rules::specs::Machine::field4))]
    fn of(form: Form, code: &[u8], address: u64) -> Field
        ensures value { result.value ≡ machine.field_at code.now (form.long - 4) }
        ensures next { result.next ≡ (address + form.long) % machine.word }
    {
        let at = form.long as usize - 4;
        Field {
            value: u32::from_le_bytes([
                byte_at(code, at),
                byte_at(code, at + 1),
                byte_at(code, at + 2),
                byte_at(code, at + 3),
            ]),
            next: address.wrapping_add(u64::from(form.long)),
        }
    }

    // The field with its sign, modulo 2^64.
    #[tactic(auto, unfolding(rules::specs::Range::read_back))]
    fn immediate(self) -> u64
        ensures { result ≡ machine.signed32 self.value }
    {
        i64::from(self.value.cast_signed()).cast_unsigned()
    }

    // next + field.
    fn address(self) -> u64
        ensures { result ≡ (self.next + machine.signed32 self.value) % machine.word }
    {
        self.next.wrapping_add(self.immediate())
    }

    // The operand, where the slot holds the number `slot`.
    #[tactic(auto, using(crate::proofs::Laws::loads))]
    fn operand(self, source: Source, wide: bool, slot: u64) -> u64
        ensures value { (s : machine.State) → (from_slot (source_of source) ≡ true → machine.read8 s.mem ((self.next + machine.signed32 self.value) % machine.word) ≡ slot) → machine.operand (source_of source) wide s self.value self.next ≡ result }
        ensures bound { result < machine.size wide }
    {
        let value = match source {
            Source::Slot => slot,
            Source::Imm => self.immediate(),
            Source::Addr => self.address(),
        };
        low(wide, value)
    }
}

// An operation at a size, and its two operands.
#[derive(Clone, Copy)]
struct Operation {
    op: Op,
    wide: bool,
    a: u64,
    b: u64,
    ghost a_fits: { a < machine.size wide },
    ghost b_fits: { b < machine.size wide },
}

impl Operation {
    #[tactic(auto, unfolding(rules::specs::Machine::result))]
    fn outcome(self) -> u64
        ensures { result ≡ machine.result (op_of self.op) self.wide self.a self.b }
    {
        match self.op {
            Op::Add => low(self.wide, self.a.wrapping_add(self.b)),
            Op::Sub => low(self.wide, self.a.wrapping_sub(self.b)),
        }
    }

    // The flags after it.
    #[tactic(auto, unfolding(rules::specs::Machine::result, rules::specs::Machine::same_sign, rules::specs::Machine::flags_after))]
    fn flags(self) -> Flags
        ensures { let r = machine.result (op_of self.op) self.wide self.a self.b in flags_of result ≡ machine.flags_after (op_of self.op) self.wide self.a self.b r }
    {
        let Operation { op, wide, a, b } = self;
        let r = self.outcome();
        let same = negative(wide, a) == negative(wide, b);
        let turned = negative(wide, a) != negative(wide, r);
        let (cf, af, of) = match op {
            Op::Add => (r < a, 16 <= a % 16 + b % 16, same && turned),
            Op::Sub => (a < b, a % 16 < b % 16, !same && turned),
        };
        Flags {
            cf,
            pf: parity(r),
            af,
            zf: r == 0,
            sf: negative(wide, r),
            of,
        }
    }
}

const RSP: Register = Register { number: 4 };

impl State {
    fn reg(&self, k: Register) -> u64
        ensures { result ≡ slice_index self.now.regs k.number }
    {
        self.regs[k.number as usize]
    }

    #[tactic(auto, using(crate::proofs::Laws::put_set))]
    fn set_reg(&mut self, k: Register, v: u64)
        ensures regs { machine.put (λ i. slice_index self.old.regs i) k.number v ≡ (λ i. slice_index self.new.regs i) }
        ensures flags { self.new.flags ≡ self.old.flags }
    {
        self.regs[k.number as usize] = v;
    }

    fn store(&mut self, target: Option<Register>, v: u64)
        ensures regs { (f : machine.Flags) (m : ℕ → ℕ) → machine.store (target_of target) v (state_by self.old.regs f m) ≡ state_by self.new.regs f m }
        ensures flags { self.new.flags ≡ self.old.flags }
    {
        if let Some(k) = target {
            self.set_reg(k, v);
        }
    }

    // An operation with its target, and whether it sets the flags.
    #[tactic(auto, unfolding(rules::specs::Machine::exec))]
    fn exec(&mut self, operation: Operation, target: Option<Register>, sets: bool)
        ensures { (m : ℕ → ℕ) → machine.exec (op_of operation.op) operation.wide (target_of target) sets operation.a operation.b (state_of self.old m) ≡ state_of self.new m }
    {
        self.store(target, operation.outcome());
        if sets {
            self.flags = operation.flags();
        }
    }

    // Pushes v at rsp - 8.
    #[tactic(auto, unfolding(rules::specs::Machine::push))]
    fn push(&mut self, v: u64) -> Push
        ensures { (m : ℕ → ℕ) → machine.push v (state_of self.old m) ≡ state_of self.new (memory_of (Some result) m) }
    {
        let at = self.reg(RSP).wrapping_sub(8);
        self.set_reg(RSP, at);
        Push { value: v, at }
    }
}

// What an action does, with its field and what its slot holds.
fn perform(action: Action, field: Field, slot: u64, mut state: State) -> Stepped
    ensures { (m : ℕ → ℕ) → SlotHolds (action_of (Some action)) field.value field.next slot m → machine.perform (action_of (Some action)) field.value field.next (state_of state m) ≡ answer_of (Some result) m }
{
    let mut next = field.next;
    let mut push = None;
    match action {
        Action::Move {
            wide,
            target,
            source,
        } => state.set_reg(target, field.operand(source, wide, slot)),
        Action::Alu {
            op,
            wide,
            target,
            first,
            source,
            sets,
        } => {
            let a = low(wide, state.reg(first));
            let b = field.operand(source, wide, slot);
            state.exec(Operation { op, wide, a, b }, target, sets);
        }
        Action::Call(source) => {
            push = Some(state.push(next));
            next = field.operand(source, true, slot);
        }
        Action::Jump(source) => next = field.operand(source, true, slot),
    }
    Stepped { state, next, push }
}

// The step of the instruction that begins `code`, which is loaded at `address`; `slot` is what the 8
// bytes of its slot hold.
#[tactic(auto, unfolding(rules::specs::Machine::step_at))]
pub fn step(code: &[u8], address: u64, slot: u64, state: State) -> Option<Stepped>
    ensures { (m : ℕ → ℕ) → CodeSlotHolds code.now address slot m → machine.step_at code.now address (state_of state m) ≡ answer_of result m }
{
    let form = decode(code);
    if code.len() < form.long as usize {
        return None;
    }
    let field = Field::of(form, code, address);
    Some(perform(form.action?, field, slot, state))
}

// The address of the slot of the instruction that begins `code`, which is loaded at `address`: next + field.
pub fn slot_address(code: &[u8], address: u64) -> u64
    ensures { result ≡ code_slot code.now address }
{
    Field::of(decode(code), code, address).address()
}
