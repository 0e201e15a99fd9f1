//! The lines of a slice, each at its home, and what the image gives them at the start.
ghost use Rattle.std.specs.Prelude.{◌≡◌, ◌==◌, ◌≤◌, None, Some, IfOk, OnErr};
ghost use Rattle.std.specs.FinMap as map;
ghost use Rattle.std.specs.Option.{option_copied};
ghost use Rattle.dir_slice.specs.Directory.{zero_line, file_lines, start_homes, home_at, requested, answered};
ghost use Rattle.dir_slice.specs.Inner.{has, PutsLines, IsSite, AreWithin, AreMade};
ghost use Rattle.dir_slice.specs.Line.{fresh};
ghost use Rattle.elf_image.specs.Image.{IsSegment};

use crate::home::{Home, Site};
use crate::states::Request;
use elf_image::{Segment, World};
use sim_base::{Line, LineData, NoMemory, NodeId};
use std::alloc::Global;
use std::collections::BTreeMap;
use std::marker::Model;
use wire_msg::{Out, Up};

/// How many bytes a line has.
const LINE_BYTES: u64 = 64;

/// What a line holds that no file of the program has a byte of.
#[tactic(auto, unfolding(crate::specs::Directory::zero_line))]
pub(crate) fn zero_line() -> LineData
    ensures { result ≡ zero_line }
{
    LineData { bytes: [0; 64] }
}

/// The lines that a slice of the directory knows of, which contracts see as a finite map.
#[derive(Drop)]
pub(crate) struct Homes {
    known: BTreeMap<Line, Home>,
}

impl Model for Homes {
    ghost use Rattle.std.specs.Coded.{coded_ℕ};
    ghost use Rattle.std.specs.FinMap as map;
    ghost use Rattle.std.specs.Ordering.{nat_cmp};
    ghost use Rattle.dir_slice.specs.Inner.{home_code};
    ghost use Rattle.dir_slice.specs.Line.{Home};

    ghost Value = { map.FinMap nat_cmp Home };

    ghost coded = { map.code coded_ℕ home_code };

    ghost view = { λ h. map.from_entries h.known.entries };
}

impl Homes {
    /// No lines yet.
    pub(crate) fn new(alloc: Global) -> Homes
        ensures { result ≡ map.empty }
    {
        Homes {
            known: BTreeMap::new(alloc),
        }
    }

    /// The lines of a tile before the program runs.
    pub(crate) fn start(alloc: Global, world: &World, tile: NodeId) -> Result<Homes, NoMemory>
        ensures { IfOk result (λ homes. homes ≡ start_homes world.now tile) }
    {
        let mut homes = Homes::new(alloc);
        for segment in world.image().segments() {
            homes.put_segment(alloc, world, tile, segment)?;
        }
        Ok(homes)
    }

    /// Puts the lines that have a byte of a segment's file.
    fn put_segment(
        &mut self,
        alloc: Global,
        world: &World,
        tile: NodeId,
        segment: &Segment,
    ) -> Result<(), NoMemory>
        requires { IsSegment segment.now }
        ensures { IfOk result (λ _. PutsLines world.now tile (has (file_lines segment.now)) self.old self.new) }
    {
        let len = segment.bytes.len() as u64;
        if len == 0 {
            return Ok(());
        }
        let first = segment.vaddr / LINE_BYTES;
        let last = (segment.vaddr + len - 1) / LINE_BYTES;
        for line in first..last + 1 {
            self.put_line(alloc, world, tile, line)?;
        }
        Ok(())
    }

    /// Puts a line with what the image gives it, if the tile is its home.
    fn put_line(
        &mut self,
        alloc: Global,
        world: &World,
        tile: NodeId,
        line: Line,
    ) -> Result<(), NoMemory>
        ensures { IfOk result (λ _. PutsLines world.now tile (λ q. q == line) self.old self.new) }
    {
        if world.config().home(line) == tile {
            self.put(line, Home::fresh(alloc, world.initial_line(line)))?;
        }
        Ok(())
    }

    /// A line at its home, if it is known.
    #[inline]
    pub(crate) fn get(&self, line: Line) -> Option<&Home>
        ensures { option_copied result ≡ map.get self.now line }
    {
        self.known.get(&line)
    }

    /// A node asks for a line. One that isn't known yet is fresh.
    pub(crate) fn request(
        &mut self,
        alloc: Global,
        site: Site<'_>,
        request: Request,
        out: &mut Out,
    ) -> Result<(), NoMemory>
        requires site { IsSite site.config.now site.tile }
        requires within { AreWithin site.config.now.tiles self.old }
        requires from_in_range { request.from ≤ site.config.now.tiles }
        ensures within { AreWithin site.entry.config.now.tiles self.new }
        ensures made { IfOk result (λ _. AreMade site.entry.line (Some (requested site.entry.config.now site.entry.tile site.entry.line (home_at self.old site.entry.line) request)) self.old self.new out.old.items out.new.items) }
    {
        if let Some(home) = self.known.get_mut(&site.line) {
            return home.request(site, request, out);
        }
        let mut home = Home::fresh(alloc, zero_line());
        home.request(site, request, out)?;
        self.put(site.line, home)
    }

    /// A node answers to a line's home. A line that isn't known yet has no row for an answer.
    pub(crate) fn answer(
        &mut self,
        site: Site<'_>,
        from: NodeId,
        says: &Up,
        out: &mut Out,
    ) -> Result<(), NoMemory>
        requires site { IsSite site.config.now site.tile }
        requires within { AreWithin site.config.now.tiles self.old }
        ensures within { AreWithin site.entry.config.now.tiles self.new }
        ensures made { IfOk result (λ _. AreMade site.entry.line (answered site.entry.config.now site.entry.tile site.entry.line (home_at self.old site.entry.line) from says.now) self.old self.new out.old.items out.new.items) }
    {
        if let Some(home) = self.known.get_mut(&site.line) {
            return home.answer(site, from, says, out);
        }
        Ok(())
    }

    /// Puts a line's home.
    #[inline]
    pub(crate) fn put(&mut self, line: Line, home: Home) -> Result<(), NoMemory>
        ensures ok { IfOk result (λ _. self.new ≡ map.insert self.old line home) }
        ensures err { OnErr result (self.new ≡ self.old) }
    {
        self.known.insert(line, home)?;
        Ok(())
    }
}
