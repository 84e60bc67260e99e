//! Random methods with heads, right ones and wrong ones: the pass gives the verdict of the slow program.

use crate::loops::slow::{Subject, slow_verdict};
use crate::verdicts::class_of;
use bpf_decode::{
    Arithmetic, Comparison, Insn, Method, OpWidth, Operand, Register, RuleSet, Width,
};
use bpf_machine::Caps;
use loop_heads::{Head, HeadPlace, Loops, PlaceKind};
use loop_verdict::verify_by_heads;
use std::alloc::Global;
use verifier::{Rule, slots_of};

/// Pseudorandom numbers.
struct Dice {
    state: u64,
}

impl Drop for Dice {
    fn drop(self) {
        let Dice { state: _ } = self;
    }
}

impl Dice {
    /// A number below `sides`.
    fn roll(&mut self, sides: u8) -> u8 {
        self.state = self
            .state
            .wrapping_mul(6_364_136_223_846_793_005)
            .wrapping_add(1_442_695_040_888_963_407);
        let high = (self.state >> 33) % u64::from(sides.max(1));
        (high % 256) as u8
    }

    /// One of these.
    fn pick<T: Copy>(&mut self, all: &[T], least: T) -> T {
        let at = usize::from(self.roll((all.len() % 256) as u8));
        match all.get(at) {
            None => least,
            Some(one) => *one,
        }
    }
}

/// A register that instructions write, and one that they read.
fn written(dice: &mut Dice) -> Option<Register> {
    Register::new(dice.pick(&[0, 4, 4, 5, 6, 1], 0))
}

fn read(dice: &mut Dice) -> Option<Register> {
    Register::new(dice.pick(&[0, 4, 5, 6, 1, 1, 2, 10], 0))
}

fn operand(dice: &mut Dice) -> Option<Operand> {
    if dice.roll(2) == 0 {
        Some(Operand::Immediate(i32::from(dice.roll(9))))
    } else {
        Some(Operand::Register(read(dice)?))
    }
}

/// A comparison, one of whose edges jumps by a distance.
fn branch(dice: &mut Dice, offset: i16) -> Option<Insn> {
    let comparison = dice.pick(
        &[
            Comparison::Equal,
            Comparison::NotEqual,
            Comparison::Greater,
            Comparison::GreaterEqual,
            Comparison::Less,
            Comparison::LessEqual,
            Comparison::SignedLess,
        ],
        Comparison::Less,
    );
    Some(Insn::Branch {
        bits: if dice.roll(8) == 0 {
            OpWidth::Bits32
        } else {
            OpWidth::Bits64
        },
        comparison,
        dst: read(dice)?,
        source: operand(dice)?,
        offset,
    })
}

/// Arithmetic, or a copy.
fn computation(dice: &mut Dice) -> Option<Insn> {
    let dst = written(dice)?;
    let source = operand(dice)?;
    let bits = OpWidth::Bits64;
    let operation = dice.pick(
        &[
            Arithmetic::Add,
            Arithmetic::Add,
            Arithmetic::Sub,
            Arithmetic::And,
        ],
        Arithmetic::Add,
    );
    if dice.roll(3) == 0 {
        Some(Insn::Mov { bits, dst, source })
    } else {
        Some(Insn::Alu {
            bits,
            operation,
            dst,
            source,
        })
    }
}

/// A load or a store, mostly of the stack's last slot.
fn access(dice: &mut Dice) -> Option<Insn> {
    let base = Register::new(dice.pick(&[10, 10, 10, 1], 10))?;
    let offset = if base.number() == 10 {
        -8
    } else {
        i16::from(dice.roll(5))
    };
    let width = dice.pick(&[Width::Byte, Width::Double], Width::Double);
    if dice.roll(2) == 0 {
        let dst = written(dice)?;
        Some(Insn::Load {
            width,
            dst,
            base,
            offset,
        })
    } else {
        let source = operand(dice)?;
        Some(Insn::Store {
            width,
            base,
            offset,
            source,
        })
    }
}

/// An instruction that goes on, or jumps over one or two.
fn instruction(dice: &mut Dice) -> Option<Insn> {
    match dice.roll(8) {
        0 => access(dice),
        1 => {
            let over = i16::from(dice.roll(2));
            branch(dice, over)
        }
        _ => computation(dice),
    }
}

/// Code: registers 0, 4, 5 and 6 are set, then come some instructions, then a jump back, and the end.
fn code(alloc: Global, dice: &mut Dice, back: u16) -> Option<Vec<Insn>> {
    let mut code = Vec::new(alloc);
    for number in [0, 4, 5, 6] {
        let dst = Register::new(number)?;
        let source = Operand::Immediate(i32::from(dice.roll(9)));
        code.push(Insn::Mov {
            bits: OpWidth::Bits64,
            dst,
            source,
        })
        .ok()?;
    }
    let count = dice.roll(5);
    for _ in 0..count {
        code.push(instruction(dice)?).ok()?;
    }
    // From the slot after the jump, which is the number of instructions and one.
    let slot = (code.len() % 100) as i16;
    let offset = (back % 100) as i16 - slot - 1;
    let last = if dice.roll(6) == 0 {
        Insn::Jump { offset }
    } else {
        branch(dice, offset)?
    };
    code.push(last).ok()?;
    code.push(Insn::Mov {
        bits: OpWidth::Bits64,
        dst: Register::new(0)?,
        source: Operand::Immediate(0),
    })
    .ok()?;
    code.push(Insn::Exit).ok()?;
    Some(code)
}

/// What is declared of a place, mostly enough.
fn kind(dice: &mut Dice, number: u8) -> PlaceKind {
    let high = u64::from(dice.roll(20));
    match dice.roll(8) {
        0 => PlaceKind::Unset,
        1 => PlaceKind::Unsigned(0, high),
        2 => PlaceKind::Signed(-1, i64::from(dice.roll(20))),
        3 => PlaceKind::Stack(0, high),
        _ => {
            if number == 1 {
                PlaceKind::Input(0, high)
            } else {
                PlaceKind::Any
            }
        }
    }
}

/// A head at a slot, of which some places are declared.
fn head(alloc: Global, dice: &mut Dice, slot: u16) -> Option<Head> {
    let mut places = Vec::new(alloc);
    for number in [0, 1, 4, 5, 6, 74] {
        if dice.roll(4) > 0 && (number != 1 || dice.roll(3) == 0) {
            let kind = kind(dice, number);
            places.push(HeadPlace { number, kind }).ok()?;
        }
    }
    Some(Head::new(slot, places))
}

/// One or two heads, mostly at the slot to which the code jumps back.
fn loops(alloc: Global, dice: &mut Dice, back: u16) -> Option<Loops> {
    let slot = if dice.roll(12) == 0 {
        u16::from(dice.roll(9))
    } else {
        back
    };
    let mut heads = Vec::new(alloc);
    heads.push(head(alloc, dice, slot)?).ok()?;
    if dice.roll(4) == 0 {
        let second = slot.wrapping_add(u16::from(dice.roll(3)) + 1);
        heads.push(head(alloc, dice, second)?).ok()?;
    }
    Loops::new(100, heads).ok()
}

/// The rule that refuses a random method, or that none does, by the pass and the slow program alike;
/// none at all if they differ, or memory ran out.
fn verdict(alloc: Global, dice: &mut Dice) -> Option<Option<Rule>> {
    let back = u16::from(dice.roll(7));
    let code = code(alloc, dice, back)?;
    let loops = loops(alloc, dice, back)?;
    let name = String::from_str(alloc, "f").ok()?;
    let class = class_of(
        alloc,
        RuleSet::Three,
        Some(Method::new(name, 1, 16, 0, code)),
    )?;
    for (number, method) in class.methods().iter().enumerate() {
        let code = slots_of(alloc, method.instructions()).ok()?;
        let caps = Caps::of(method);
        let subject = Subject {
            caps: &caps,
            heads: loops.heads(),
            code: &code,
        };
        let slow = slow_verdict(alloc, &subject).ok()?;
        return match (verify_by_heads(alloc, number, method, &loops), slow) {
            (Ok(_), None) => Some(None),
            (Err(refusal), Some((slot, rule))) => {
                if refusal.slot == slot && refusal.rule == rule {
                    Some(Some(rule))
                } else {
                    None
                }
            }
            (Ok(_), Some(_)) | (Err(_), None) => None,
        };
    }
    None
}

#[test]
fn judges_random_loops(rt: HostRuntime) {
    let mut dice = Dice { state: 7 };
    let mut accepted = 0usize;
    let mut backward = 0usize;
    for at in 0..2000usize {
        match verdict(rt.alloc(), &mut dice) {
            None => assert!(rt; false, "method {at}"),
            Some(None) => accepted = accepted.wrapping_add(1),
            Some(Some(Rule::Backward)) => backward = backward.wrapping_add(1),
            Some(Some(_)) => {}
        }
    }
    assert!(rt;
        accepted > 400 && backward > 200,
        "accepted {accepted}, backward {backward}"
    );
}
