//! The home's role of a tile: what it makes of what nodes tell it of the lines whose home it is.
ghost use Rattle.std.specs.Prelude.{◌≡◌, true, IsSome};
ghost use Rattle.wire_msg.specs.Message.{may_send, up_of};
ghost use Rattle.tile_node.specs.Deliver.{taken};
ghost use Rattle.tile_node.specs.Answers.{IsOf};
ghost use Rattle.tile_node.specs.Inner.{Makes};

use crate::tile::TileNode;
use elf_image::World;
use sim_base::{Action, NoMemory, NodeId};
use std::alloc::Global;
use wire_msg::{Msg, Out};

impl TileNode {
    /// A node tells it of a line as the line's home.
    #[tactic(auto, using(crate::proofs::Facts::from_reader, crate::proofs::Facts::at_home))]
    pub(crate) fn hear(
        &mut self,
        alloc: Global,
        world: &World,
        from: NodeId,
        msg: &Msg,
        out: &mut Out,
    ) -> Result<Option<Action>, NoMemory>
        requires fits { IsOf world.now self.old }
        requires sent { may_send world.now.config from self.old.number msg.now ≡ true }
        requires told { IsSome (up_of msg.now) }
        ensures { Makes result self.old self.new out.old.items out.new.items (taken world.now self.old from msg.now) }
    {
        let config = world.config();
        match msg {
            Msg::GetS { line } => {
                self.slice.request(alloc, config, from, *line, false, out)?;
                Ok(None)
            }
            Msg::GetM { line } => {
                self.slice.request(alloc, config, from, *line, true, out)?;
                Ok(None)
            }
            Msg::PutM { line, content } => {
                self.slice.put(config, from, *line, content, out)?;
                Ok(None)
            }
            Msg::InvAck { line } => {
                self.slice.ack(config, from, *line, out)?;
                Ok(None)
            }
            Msg::FetchAck { line, content } => {
                self.slice.fetched(config, from, *line, content, out)?;
                Ok(None)
            }
            _ => Ok(None),
        }
    }
}
