//! An instruction of the text with its cost class.

ghost use Rattle.std.specs.Prelude.{◌≡◌};
ghost use Rattle.rv_exec.specs.Class.{class_of};

use rv_decode::Instr;
use rv_exec::class;
use sim_base::CostClass;
use std::marker::Model;

/// An instruction of the text, with its class, found once when the image is made. Contracts see it as the instruction.
#[derive(Drop)]
pub struct Listed {
    instr: Instr,
    class: CostClass,
}

impl Model for Listed {
    ghost use Rattle.std.specs.Prelude.{◌≡◌};
    ghost use Rattle.rv_decode.specs.declared.instr.Instr.{Instr};
    ghost use Rattle.rv_exec.specs.Class.{class_of};

    ghost Value = { Instr };

    ghost view = { λ l. l.instr };

    ghost invariant = { λ l. l.class ≡ class_of l.instr };
}

impl Listed {
    /// An instruction with its class.
    pub(crate) fn of(instr: Instr) -> Listed
        ensures { result ≡ instr }
    {
        let class = class(&instr);
        Listed { instr, class }
    }

    /// The instruction.
    #[inline(always)]
    pub fn instr(&self) -> &Instr
        ensures { result.now ≡ self.now }
    {
        &self.instr
    }

    /// Its class.
    #[inline(always)]
    pub fn class(&self) -> CostClass
        ensures { result ≡ class_of self.now }
    {
        self.class
    }
}
