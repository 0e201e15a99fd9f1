//! Reading the events of a journal, in their order.
ghost use Rattle.std.specs.Prelude.{◌≡◌, ◌++◌, ◌∷◌, ◌≤◌, [], true, length, MatchOption};
ghost use Rattle.std.specs.List.{list_all};
ghost use Rattle.event_journal.specs.Blocks.{IsPlace, is_whole, covered_by, unrolled, left, IsRefilled};

use crate::blocks::Block;
use crate::events::Event;
use std::marker::Model;

/// A place in a journal: what is left of the events at hand, what stands so many times behind them, and what is behind that.
#[derive(Clone, Copy)]
pub(crate) struct Place<'a> {
    at_hand: &'a [Event],
    again: &'a [Event],
    times: u32,
    blocks: &'a [Block],
    noted: &'a [Event],
}

/// The events of a journal that are left to be read. Contracts see the list.
#[derive(Drop)]
pub struct Events<'a> {
    place: Place<'a>,
}

impl<'a> Model for Events<'a> {
    ghost use Rattle.std.specs.Prelude.{List};
    ghost use Rattle.event_journal.specs.declared.events.Event.{Event};
    ghost use Rattle.event_journal.specs.Blocks.{IsPlace, left};

    ghost Value = { List Event };

    ghost view = { λ e. left e.place };

    ghost invariant = { λ e. IsPlace e.place };
}

impl<'a> Events<'a> {
    /// All that these blocks and noted events stand for.
    pub(crate) fn of(noted: &'a [Event], blocks: &'a [Block]) -> Events<'a>
        requires within { covered_by blocks.now ≤ length noted.now }
        requires whole { list_all is_whole blocks.now ≡ true }
        ensures { result ≡ unrolled blocks.now noted.now }
    {
        Events {
            place: Place {
                at_hand: &[],
                again: &[],
                times: 0,
                blocks,
                noted,
            },
        }
    }

    /// Takes the next event, if one is left.
    #[inline]
    pub fn next(&mut self) -> Option<Event>
        ensures { MatchOption result ((self.old ≡ []) × (self.new ≡ [])) (λ event. self.old ≡ event ∷ self.new) }
    {
        if self.place.at_hand.is_empty() {
            self.place = refilled(self.place);
        }
        let [event, at_hand @ ..] = self.place.at_hand else {
            return None;
        };
        self.place.at_hand = at_hand;
        Some(*event)
    }
}

/// The same place where no events are at hand, with the next ones at hand, if there are any.
fn refilled(place: Place<'_>) -> Place<'_>
    requires empty { place.at_hand.now ≡ [] }
    requires place { IsPlace place }
    ensures same { left result ≡ left place.entry }
    ensures place { IsPlace result }
    ensures at_hand { IsRefilled result }
{
    if place.times > 0 {
        return Place {
            at_hand: place.again,
            times: place.times - 1,
            ..place
        };
    }
    let Some((block, blocks)) = place.blocks.split_first() else {
        return Place {
            at_hand: place.noted,
            noted: &[],
            ..place
        };
    };
    let (once, rest) = place.noted.split_at(block.once);
    let (again, noted) = rest.split_at(block.size);
    if once.is_empty() {
        Place {
            at_hand: again,
            again,
            times: block.times - 1,
            blocks,
            noted,
        }
    } else {
        Place {
            at_hand: once,
            again,
            times: block.times,
            blocks,
            noted,
        }
    }
}
