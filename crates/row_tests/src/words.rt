//! The words are what LLVM's assembler (`llvm-mc -triple=riscv64 -mattr=+m,+a`) writes for the line beside each. Every
//! instruction's words stand in the cases of `instruction_cases`.

use rv_decode::{Instr, Op, decode};

#[test]
fn words_by_form(rt: HostRuntime) {
    let rows = [
        (
            0x7eb5_4fe3, // blt a0, a1, 4094
            Some(Instr::Branch {
                op: Op::Blt,
                rs1: 10,
                rs2: 11,
                imm: 4094,
            }),
        ),
        (
            0x4205_d513, // srai a0, a1, 32
            Some(Instr::Shift {
                op: Op::Srai,
                rd: 10,
                rs1: 11,
                amount: 32,
            }),
        ),
        (
            0x02c5_a533, // mulhsu a0, a1, a2
            Some(Instr::Reg {
                op: Op::Mulhsu,
                rd: 10,
                rs1: 11,
                rs2: 12,
            }),
        ),
        (0x0000_0073, Some(Instr::Ecall)), // ecall
        (0x0000_0000, None),
    ];
    for (word, instr) in rows {
        let is_decoded = decode(word) == instr;
        assert!(rt; is_decoded, "{word:#010x}");
    }
}
