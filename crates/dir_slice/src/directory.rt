//! A slice of the directory, and its calls: each is one message to a line's home.
ghost use Rattle.std.specs.Prelude.{◌≡◌, ◌<◌, ◌≤◌, Some, false, true, IfOk, OnErr, if◌then◌else◌};
ghost use Rattle.dir_slice.specs.Directory.{Answers, home_at, start_slice, answered, reaction};
ghost use Rattle.sim_base.specs.Numbering.{home_of};
ghost use Rattle.sim_base.specs.Settings.{IsChecked};

use crate::home::Site;
use crate::homes::{Homes, zero_line};
use crate::states::Request;
use elf_image::World;
use sim_base::{Config, Line, LineData, NoMemory, NodeId};
use std::alloc::Global;
use std::marker::Model;
use wire_msg::{Out, Up, Want};

/// A slice of the directory: the lines whose home is one tile, each with its state, the home's memory, the requests
/// that wait, and the delay of its last transaction. Each call is one message to a line's home. It appends what the
/// home sends, receivers and messages in order, or changes and sends nothing where the protocol has no row for the
/// message. Where memory runs out the slice is spent: that call and all later ones answer `NoMemory`. The settings are
/// those that the slice was made with. The protocol is an MSI directory with busy states, after the full-map
/// directories of Graphite (HPCA 2010).
#[derive(Drop)]
pub struct Dir {
    tile: NodeId,
    tiles: u32,
    homes: Homes,
    spent: bool,
}

impl Model for Dir {
    ghost use Rattle.dir_slice.specs.Inner.{slice_code, AreWithin};
    ghost use Rattle.dir_slice.specs.Directory.{Slice};

    ghost Value = { Slice };

    ghost coded = { slice_code };

    ghost view = { λ d. record { tile = d.tile; tiles = d.tiles; homes = d.homes; spent = d.spent } };

    ghost invariant = { λ d. AreWithin d.tiles d.homes };
}

impl Dir {
    /// The slice of a tile before the program runs: nobody holds a line whose home is the tile, and the home's memory
    /// has what the image gives the line.
    pub fn new(alloc: Global, world: &World, tile: NodeId) -> Result<Dir, NoMemory>
        requires { tile < world.now.config.tiles }
        ensures { IfOk result (λ dir. dir ≡ start_slice world.now tile) }
    {
        let homes = Homes::start(alloc, world, tile)?;
        Ok(Dir {
            tile,
            tiles: world.config().tiles,
            homes,
            spent: false,
        })
    }

    /// The 64 bytes that the home itself has of a line. They may be older than those of a tile that holds the line in
    /// M, or of a message that is on its way to the home.
    #[inline]
    pub fn memory(&self, line: Line) -> LineData
        ensures { result ≡ (home_at self.now.homes line).memory }
    {
        match self.homes.get(line) {
            Some(home) => home.memory(),
            None => zero_line(),
        }
    }

    /// A node, a tile or the control server, asks for a line, to write it or only to read it. The request waits while
    /// a transaction is under way. Otherwise it begins one, which fixes the delay that the node's clock is to add, in
    /// cycles: by how far the node is, and the farthest of those that have to share the line or give it up.
    pub fn request(
        &mut self,
        alloc: Global,
        config: &Config,
        from: NodeId,
        line: Line,
        write: bool,
        out: &mut Out,
    ) -> Result<(), NoMemory>
        requires checked { IsChecked config.now }
        requires same_machine { config.now.tiles ≡ self.old.tiles }
        requires home { home_of config.now line ≡ self.old.tile }
        requires from_in_range { from ≤ config.now.tiles }
        ensures { Answers result self.old self.new out.old.items out.new.items line
            (reaction config.now self.old.tile line (home_at self.old.homes line) from (Up.Asks (if write then Want.Write else Want.Read))) }
    {
        self.begin()?;
        let site = Site {
            config,
            tile: self.tile,
            line,
        };
        let want = want_of(write);
        self.homes
            .request(alloc, site, Request { from, want }, out)?;
        self.spent = false;
        Ok(())
    }

    /// A node answers an `Inv`: it has no copy of the line any more. After the last answer the writer gets the line,
    /// and the waiting requests are served, until a transaction is under way again or none is left.
    pub fn ack(
        &mut self,
        config: &Config,
        from: NodeId,
        line: Line,
        out: &mut Out,
    ) -> Result<(), NoMemory>
        requires checked { IsChecked config.now }
        requires same_machine { config.now.tiles ≡ self.old.tiles }
        requires home { home_of config.now line ≡ self.old.tile }
        ensures { Answers result self.old self.new out.old.items out.new.items line
            (reaction config.now self.old.tile line (home_at self.old.homes line) from Up.Acknowledges) }
    {
        self.answer(config, from, line, &Up::Acknowledges, out)
    }

    /// The owner of a line answers a fetch, with the line's data, which the home's memory has from then on: a reader
    /// shares the line with it, a writer gets it alone. Then the waiting requests are served.
    pub fn fetched(
        &mut self,
        config: &Config,
        from: NodeId,
        line: Line,
        content: &LineData,
        out: &mut Out,
    ) -> Result<(), NoMemory>
        requires checked { IsChecked config.now }
        requires same_machine { config.now.tiles ≡ self.old.tiles }
        requires home { home_of config.now line ≡ self.old.tile }
        ensures { Answers result self.old self.new out.old.items out.new.items line
            (reaction config.now self.old.tile line (home_at self.old.homes line) from (Up.HandsOver content.now)) }
    {
        let says = Up::HandsOver { content: *content };
        self.answer(config, from, line, &says, out)
    }

    /// The owner of a line gives it up by itself, with its data, which the home's memory has from then on. If it was
    /// asked for the line meanwhile, that answers the fetch. Then the waiting requests are served.
    pub fn put(
        &mut self,
        config: &Config,
        from: NodeId,
        line: Line,
        content: &LineData,
        out: &mut Out,
    ) -> Result<(), NoMemory>
        requires checked { IsChecked config.now }
        requires same_machine { config.now.tiles ≡ self.old.tiles }
        requires home { home_of config.now line ≡ self.old.tile }
        ensures { Answers result self.old self.new out.old.items out.new.items line
            (reaction config.now self.old.tile line (home_at self.old.homes line) from (Up.GivesUp content.now)) }
    {
        let says = Up::GivesUp { content: *content };
        self.answer(config, from, line, &says, out)
    }

    /// A node answers: it dropped its copy, or the owner sent the line.
    fn answer(
        &mut self,
        config: &Config,
        from: NodeId,
        line: Line,
        says: &Up,
        out: &mut Out,
    ) -> Result<(), NoMemory>
        requires checked { IsChecked config.now }
        requires same_machine { config.now.tiles ≡ self.old.tiles }
        requires home { home_of config.now line ≡ self.old.tile }
        ensures { Answers result self.old self.new out.old.items out.new.items line
            (answered config.now self.old.tile line (home_at self.old.homes line) from says.now) }
    {
        self.begin()?;
        let site = Site {
            config,
            tile: self.tile,
            line,
        };
        self.homes.answer(site, from, says, out)?;
        self.spent = false;
        Ok(())
    }

    /// A call begins, unless the slice is spent. It is spent until the call ends.
    #[inline]
    fn begin(&mut self) -> Result<(), NoMemory>
        ensures ok { IfOk result (λ _. (self.old.spent ≡ false) × (self.new ≡ record self.old { spent = true })) }
        ensures err { OnErr result ((self.new ≡ self.old) × (self.old.spent ≡ true)) }
    {
        if self.spent {
            return Err(NoMemory);
        }
        self.spent = true;
        Ok(())
    }
}

/// What a line is wanted for: to write it, or only to read it.
#[inline]
fn want_of(write: bool) -> Want
    ensures { result ≡ (if write then Want.Write else Want.Read) }
{
    if write { Want::Write } else { Want::Read }
}
