//! How lines leave a cache: room is made, a line is given up or dropped, a reservation ends.

ghost use Rattle.std.specs.Prelude.{◌≡◌, ◌++◌, None, OnOk, OnErr};
ghost use Rattle.tile_cache.specs.Cache.{content_of, victim_of, LeavesRoom, way_of};
ghost use Rattle.tile_node.specs.Tile.{unless_on};
ghost use Rattle.tile_node.specs.Deliver.{victim_tile, victim_mail, given_up_tile, put_home, inv_tile, fetched_tile};
ghost use Rattle.tile_node.specs.Inner.{IsKept};

use crate::accesses::line_at;
use crate::tile::TileNode;
use elf_image::World;
use rv_hart::Span;
use sim_base::{Line, NoMemory};
use tile_cache::Hold;
use wire_msg::{Msg, Out, Want};

/// A reservation after a line left M, which ends one on it.
pub(crate) fn unless_on(line: Line, reservation: Option<Span>) -> Option<Span>
    ensures { result ≡ unless_on line reservation }
{
    match reservation {
        Some(span) if line_at(span.addr) == line => None,
        other => other,
    }
}

impl TileNode {
    /// Makes room for a line: the least recent of its set goes, where the set is full, and goes home where it was in M.
    pub(crate) fn make_room(
        &mut self,
        world: &World,
        line: Line,
        out: &mut Out,
    ) -> Result<(), NoMemory>
        ensures tile { OnOk result (self.new ≡ victim_tile self.old (victim_of self.old.cache line)) }
        ensures told { OnOk result (out.new.items ≡ out.old.items ++ victim_mail world.now self.old (victim_of self.old.cache line)) }
        ensures room { OnOk result (victim_of self.new.cache line ≡ None) }
        ensures err { OnErr result (IsKept self.old self.new) }
    {
        match self.cache.victim(line) {
            None => Ok(()),
            Some((victim, Hold::S)) => {
                let _ = self.cache.drop_line(victim);
                Ok(())
            }
            Some((victim, Hold::M)) => self.give_up(world, victim, out),
        }
    }

    /// Gives up a line in M, with what it holds.
    fn give_up(&mut self, world: &World, line: Line, out: &mut Out) -> Result<(), NoMemory>
        ensures tile { OnOk result (self.new ≡ given_up_tile self.old line) }
        ensures told { OnOk result (out.new.items ≡ out.old.items ++ put_home world.now line (content_of self.old.cache line)) }
        ensures room { OnOk result (LeavesRoom self.old.cache line self.new.cache) }
        ensures err { OnErr result (IsKept self.old self.new) }
    {
        if let Some(content) = self.cache.drop_line(line) {
            let home = world.config().home(line);
            out.push((home, Msg::PutM { line, content }))?;
        }
        self.core.reservation = unless_on(line, self.core.reservation);
        Ok(())
    }

    /// Drops a copy that may only be read.
    pub(crate) fn drop_shared(&mut self, line: Line)
        ensures { self.new ≡ inv_tile self.old line (way_of self.old.cache line) }
    {
        if let Some(way) = self.cache.get(line) {
            if way.hold == Hold::S {
                let _ = self.cache.drop_line(line);
            }
        }
    }

    /// A line leaves M: it goes for a writer, and stays in S for a reader.
    pub(crate) fn leave_m(&mut self, line: Line, want: Want)
        ensures { self.new ≡ fetched_tile self.old line want }
    {
        match want {
            Want::Read => self.cache.downgrade(line),
            Want::Write => {
                let _ = self.cache.drop_line(line);
            }
        }
        self.core.reservation = unless_on(line, self.core.reservation);
    }
}
