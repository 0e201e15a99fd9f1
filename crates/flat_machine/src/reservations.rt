//! Which reservations end where a thread of the flat machine writes bytes.

ghost use Rattle.std.specs.Prelude.{◌≡◌, ◌<◌, map, vec_len};
ghost use Rattle.flat_machine.specs.Reservation.{share_byte, unless_written, without_reservation, others_end};

use crate::threads::Thread;
use rv_hart::Span;

/// Whether two ranges share a byte.
fn share_byte(a: &Span, b: &Span) -> bool
    ensures { result ≡ share_byte a.now b.now }
{
    let first = a.addr.max(b.addr);
    let a_end = a.addr as u128 + a.size as u128;
    let b_end = b.addr as u128 + b.size as u128;
    (first as u128) < a_end.min(b_end)
}

/// What is left of a reservation when bytes were written by another thread.
fn unless_written(written: &Span, reservation: Option<Span>) -> Option<Span>
    ensures { result ≡ unless_written written.now reservation }
{
    match reservation {
        None => None,
        Some(span) => {
            if share_byte(written, &span) {
                None
            } else {
                Some(span)
            }
        }
    }
}

/// Bytes were written: every thread whose reservation has one of them loses it.
fn end_all(threads: &mut Vec<Thread>, written: &Span)
    ensures threads { threads.new.items ≡ map (without_reservation written.now) threads.old.items }
    ensures len { vec_len threads.new ≡ vec_len threads.old }
{
    for index in 0..threads.len() {
        let thread = &mut threads[index];
        thread.reservation = unless_written(written, thread.reservation);
    }
}

/// The thread with this index wrote these bytes, if any: the others lose their reservations of them.
pub(crate) fn end_others(threads: &mut Vec<Thread>, index: usize, written: Option<Span>)
    requires { index < vec_len threads.old }
    ensures { threads.new.items ≡ others_end written threads.old.items index }
{
    let Some(span) = written else {
        return;
    };
    let own = threads[index].reservation;
    end_all(threads, &span);
    threads[index].reservation = own;
}
