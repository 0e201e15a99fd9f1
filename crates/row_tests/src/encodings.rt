//! Words that LLVM's assembler (`llvm-mc -triple=riscv64 -mattr=+m,+a`) writes for the line beside each: a decoded word
//! is encoded as itself. Every instruction's words stand in the cases of `instruction_cases`.

use rv_decode::decode;
use rv_encode::encode;

/// The word of a decoded word.
fn encoded_again(word: u32) -> Option<u32> {
    let instr = decode(word)?;
    Some(encode(&instr))
}

#[test]
fn a_decoded_word_is_encoded_as_itself(rt: HostRuntime) {
    let words = [
        0x8000_0197, // auipc gp, 0x80000
        0x8000_0fef, // jal t6, -1048576
        0x80b5_5063, // bge a0, a1, -4096
        0x81ff_2023, // sw t6, -2048(t5)
        0x4055_d51b, // sraiw a0, a1, 5
        0xe7ee_bfaf, // amomaxu.d.aqrl t6, t5, (t4)
        0x0010_0073, // ebreak
    ];
    for word in words {
        let is_itself = encoded_again(word) == Some(word);
        assert!(rt; is_itself, "{word:#010x}");
    }
}
