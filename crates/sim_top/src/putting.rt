//! Putting a whole text on a stream.
ghost use Rattle.sim_top.specs.PutAll.{PutsAll};

use sim_outside::{Failed, Sink};

/// Puts a text by repeated `put` of all that is left.
pub(crate) fn put_all<S: Sink>(out: &mut S, text: &[u8]) -> Result<(), Failed>
    ensures { PutsAll result text.now (S.taken out.old) (S.taken out.new) (S.faults out.old) (S.faults out.new) }
{
    let mut done = 0;
    while done < text.len() {
        let (_, rest) = text.split_at(done);
        let count = out.put(rest)?;
        if count == 0 {
            return Err(Failed);
        }
        done += count;
    }
    Ok(())
}
