//! Whom a tile asks for its clock under the policy with probes, and whether it may go on by the reply.

ghost use Rattle.std.specs.Prelude.{◌≡◌, ◌≢◌, ◌<◌};
ghost use Rattle.sim_base.specs.Settings.{IsChecked};
ghost use Rattle.clock_policy.specs.Probe.{may_go_on, start_stream, partner_of, after_draw};

use rand_core::utils::NextWord;
use rand_pcg::Lcg64Xsh32;
use sim_base::{Config, NodeId};
use std::marker::Model;

/// How many replies a tile waits for at most before it goes on.
const MOST_REPLIES: u8 = 8;

/// Whether a tile that asked another one's clock may go on, by the reply: where the other one isn't running, where the
/// own clock is at most `slack` cycles ahead of the other's, or where this is the eighth reply, counted from 1.
pub fn may_go_on(own: u64, partner: u64, running: bool, slack: u64, replies: u8) -> bool
    ensures { result ≡ may_go_on own partner running slack replies }
{
    !running || own.saturating_sub(partner) <= slack || MOST_REPLIES <= replies
}

/// The stream of a tile by which it picks whom it asks: PCG's XSH RR generator on 64 bits, from the seed of the settings
/// and with the tile's number and one as its stream.
#[derive(Drop)]
pub struct Probes {
    tiles: u32,
    tile: NodeId,
    generator: Lcg64Xsh32,
}

impl Model for Probes {
    ghost use Rattle.std.specs.Prelude.{◌≤◌};
    ghost use Rattle.clock_policy.specs.Probe.{ProbeStream};

    ghost Value = { ProbeStream };

    ghost view = { λ p. record { tiles = p.tiles; tile = p.tile; generator = p.generator } };

    ghost invariant = { λ p. p.tiles ≤ 64 };
}

impl Probes {
    /// The stream of a tile, before its first probe.
    #[tactic(auto, unfolding(crate::specs::Probe::start_generator))]
    pub fn new(config: &Config, tile: NodeId) -> Probes
        requires { IsChecked config.now }
        ensures { result ≡ start_stream config.now tile }
    {
        Probes {
            tiles: config.tiles,
            tile,
            generator: Lcg64Xsh32::new(config.seed, tile as u64 + 1),
        }
    }

    /// Whom the tile asks next: another tile, by the stream's next word. There is more than one tile.
    #[tactic(auto, unfolding(crate::specs::Probe::next_word, crate::specs::Probe::next_generator))]
    pub fn draw(&mut self) -> NodeId
        requires { 1 < self.old.tiles }
        ensures partner { result ≡ partner_of self.old }
        ensures tile { result < self.old.tiles }
        ensures other { result ≢ self.old.tile }
        ensures after { self.new ≡ after_draw self.old }
    {
        let word = self.generator.next_word();
        let k = (word % (self.tiles - 1)) as NodeId;
        if k < self.tile { k } else { k + 1 }
    }
}
