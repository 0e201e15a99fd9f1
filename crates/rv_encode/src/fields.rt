//! A word as six fields, which every form fills, some of them with bits of an immediate.

ghost use Rattle.std.specs.Prelude.{◌≡◌, ◌<◌, ◌^◌};
ghost use Rattle.rv_decode.specs.Field.{opcode, rd, funct3, rs1, rs2, funct7};

/// The fields of the R form, from the lowest bit to the highest.
#[derive(Clone, Copy)]
pub(crate) struct Fields {
    pub(crate) opcode: u8,
    pub(crate) rd: u8,
    pub(crate) funct3: u8,
    pub(crate) rs1: u8,
    pub(crate) rs2: u8,
    pub(crate) funct7: u8,
}

impl Fields {
    /// The word with these fields.
    pub(crate) fn word(self) -> u32
        requires opcode { self.opcode < 2 ^ 7 }
        requires rd { self.rd < 2 ^ 5 }
        requires funct3 { self.funct3 < 2 ^ 3 }
        requires rs1 { self.rs1 < 2 ^ 5 }
        requires rs2 { self.rs2 < 2 ^ 5 }
        requires funct7 { self.funct7 < 2 ^ 7 }
        ensures opcode { opcode result ≡ self.opcode }
        ensures rd { rd result ≡ self.rd }
        ensures funct3 { funct3 result ≡ self.funct3 }
        ensures rs1 { rs1 result ≡ self.rs1 }
        ensures rs2 { rs2 result ≡ self.rs2 }
        ensures funct7 { funct7 result ≡ self.funct7 }
    {
        let low = u32::from(self.funct3) << 12 | (u32::from(self.rd) << 7 | u32::from(self.opcode));
        let middle = u32::from(self.rs2) << 20 | (u32::from(self.rs1) << 15 | low);
        u32::from(self.funct7) << 25 | middle
    }
}
