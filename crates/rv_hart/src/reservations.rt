//! Reservations of LR and SC: when one begins, stands and ends on its own hart.

ghost use Rattle.std.specs.Prelude.{◌≡◌};
ghost use Rattle.rv_exec.specs.Access.{IsAccess};
ghost use Rattle.rv_hart.specs.Reservation.{span_of, matches, reserved, lacks_reservation};

use rv_exec::{Access, AccessOp};

/// A range of bytes in memory, as a reservation has it.
#[derive(Clone, Copy, Debug, PartialEq, Eq)]
pub struct Span {
    /// Its first address.
    pub addr: u64,
    /// How many bytes it has.
    pub size: u8,
}

/// The bytes of an access.
pub fn span_of(access: &Access) -> Span
    ensures { result ≡ span_of access.now }
{
    Span {
        addr: access.addr(),
        size: access.size(),
    }
}

/// Whether a reservation stands that has the address and the size of an access, as a store-conditional wants it.
pub fn matches(reservation: Option<Span>, access: &Access) -> bool
    ensures { result ≡ matches reservation access.now }
{
    match reservation {
        None => false,
        Some(span) => span.addr == access.addr() && span.size == access.size(),
    }
}

/// A hart's reservation after an access of its own, by the RISC-V ISA manual, extension A: a load-reserved makes one of
/// its bytes, and a store-conditional ends the one that stands.
#[inline(always)]
pub fn reserved(access: &Access, old: Option<Span>) -> Option<Span>
    ensures { result ≡ reserved access.now old }
{
    match access.op() {
        AccessOp::Lr => Some(span_of(access)),
        AccessOp::Sc => None,
        AccessOp::Load | AccessOp::Store | AccessOp::Amo { .. } => old,
    }
}

/// Whether an access is a store-conditional whose reservation doesn't stand.
#[inline(always)]
pub(crate) fn lacks_reservation(reservation: Option<Span>, access: &Access) -> bool
    ensures { result ≡ lacks_reservation reservation access.now }
{
    matches!(access.op(), AccessOp::Sc) && !matches(reservation, access)
}
