//! The stream of random words, and the event that two words pick.

ghost use Rattle.std.specs.Prelude.{◌≡◌, ◌*◌, ◌%◌, ◌<◌, None, IfOk, IfSome, false, length};
ghost use Rattle.node_machine.specs.Core.{acting_in};
ghost use Rattle.seq_driver.specs.Picked.{start_stream, next_word, after_word, after_draw, picked};
ghost use Rattle.node_machine.specs.Alone.{steps_of};
ghost use Rattle.seq_driver.specs.Inner.{choices_in, drawn_in, after_draws, IsLone};

use divisors::Divisors;
use event_journal::Event;
use node_machine::Core;
use node_set::NodeSet;
use rand_core::utils::NextWord;
use rand_pcg::Lcg64Xsh32;
use sim_base::{NoMemory, NodeId};
use std::alloc::Global;
use std::marker::Model;

/// The stream of random words by which a run's events are drawn: PCG's XSH RR generator on 64 bits, stream 0. Beside it stand
/// the divisors of the numbers of members of which words pick.
#[derive(Drop)]
pub(crate) struct Stream {
    generator: Lcg64Xsh32,
    divisors: Divisors,
}

impl Model for Stream {
    ghost use Rattle.rand_pcg.specs.Lcg.{Lcg};

    ghost Value = { Lcg };

    ghost view = { λ s. s.generator };
}

impl Stream {
    /// The stream of a seed, before its first word, for picks of as many members as this or fewer.
    #[tactic(auto, unfolding(crate::specs::Picked::start_stream))]
    pub(crate) fn new(alloc: Global, seed: u64, members: u32) -> Result<Stream, NoMemory>
        ensures { IfOk result (λ stream. stream ≡ start_stream seed) }
    {
        let generator = Lcg64Xsh32::new(seed, 0);
        let divisors = Divisors::up_to(alloc, members)?;
        Ok(Stream {
            generator,
            divisors,
        })
    }

    /// Its next word.
    #[tactic(auto, unfolding(crate::specs::Picked::next_word, crate::specs::Picked::after_word))]
    pub(crate) fn next(&mut self) -> u32
        ensures word { result ≡ next_word self.old }
        ensures after { self.new ≡ after_word self.old }
    {
        self.generator.next_word()
    }

    /// Passes the words that draw so many steps of a node, two each.
    #[tactic(auto, using(crate::proofs::LoneLemmas::draws_are_words))]
    pub(crate) fn pass(&mut self, node: NodeId, count: u32)
        ensures { self.new ≡ after_draws self.old (steps_of node count) }
    {
        self.generator.advance(2 * u64::from(count));
    }
}

/// The event that the stream's next two words pick, if some node can act. So many can.
#[inline]
pub(crate) fn drawn_event(core: &Core, stream: &mut Stream, count: usize) -> Option<Event>
    requires not_spent { core.now.spent ≡ false }
    requires count { count ≡ length (acting_in core.now) }
    ensures event { result ≡ drawn_in core.now stream.old }
    ensures after { stream.new ≡ after_draw stream.old }
{
    let first = stream.next();
    let second = stream.next();
    let divisors = &stream.divisors;
    let place = picked_place(divisors, first, count)?;
    let node = core.acting().get(place)?;
    choice(
        divisors,
        node,
        core.can_step(node),
        core.senders(node),
        second,
    )
}

/// The node that alone can act, where of so many that can act there is but one, and where all that it can do is to step.
#[inline]
pub(crate) fn lone_stepper(core: &Core, count: usize) -> Option<NodeId>
    requires not_spent { core.now.spent ≡ false }
    requires count { count ≡ length (acting_in core.now) }
    ensures { IfSome result (IsLone core.now) }
{
    if count != 1 {
        return None;
    }
    let node = core.acting().get(0)?;
    if core.can_step(node) && core.senders(node).is_empty() {
        Some(node)
    } else {
        None
    }
}

/// The place that a word picks of so many: the word modulo their number.
fn picked_place(divisors: &Divisors, word: u32, count: usize) -> Option<usize>
    ensures none { result ≡ None → count ≡ 0 }
    ensures place { IfSome result (λ place. place ≡ word % count) }
    ensures within { IfSome result (λ place. place < count) }
{
    if count == 0 {
        return None;
    }
    Some(divisors.remainder(u64::from(word), count) as usize)
}

/// The event that a word picks of what a node can do: its step, if it can step, and deliveries from these senders.
fn choice(
    divisors: &Divisors,
    node: NodeId,
    can_step: bool,
    senders: &NodeSet,
    word: u32,
) -> Option<Event>
    ensures { result ≡ picked (choices_in can_step node senders.now) word }
{
    let steps = if can_step { 1 } else { 0 };
    let place = picked_place(divisors, word, steps + senders.len())?;
    if place < steps {
        return Some(Event::Step { node });
    }
    let from = senders.get(place - steps)?;
    Some(Event::Deliver { from, node })
}
