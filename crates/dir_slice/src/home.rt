//! A line at its home: what the home makes of each message about it.
ghost use Rattle.std.specs.Prelude.{◌≡◌, ◌≤◌, ◌++◌, IfOk, map};
ghost use Rattle.dir_slice.specs.Directory.{taken_up, settled, requested, answered, fetch_message, data_message};
ghost use Rattle.dir_slice.specs.Inner.{sent_mail, IsMade, IsMadeIfAny, IsSite, IsWithin};
ghost use Rattle.dir_slice.specs.Line.{fresh, awaited, memory_after};

use crate::rows::Sends;
use crate::states::{Request, State};
use mesh_model::delay;
use sim_base::{Config, Line, LineData, NoMemory, NodeId};
use std::alloc::Global;
use std::collections::VecDeque;
use std::marker::Model;
use wire_msg::{Msg, Out, Up, Want};

/// Which line it is, at which tile's home, and the machine's settings.
#[derive(Clone, Copy)]
pub(crate) struct Site<'a> {
    pub(crate) config: &'a Config,
    pub(crate) tile: NodeId,
    pub(crate) line: Line,
}

/// A line at its home.
#[derive(Drop)]
pub(crate) struct Home {
    state: State,
    memory: LineData,
    waiting: VecDeque<Request>,
    delay: u64,
}

impl Model for Home {
    ghost use Rattle.dir_slice.specs.Line.{Home};

    ghost Value = { Home };

    ghost use Rattle.dir_slice.specs.Inner.{state_of};

    ghost view = { λ h. record { state = state_of h.state; memory = h.memory; waiting = h.waiting.items; delay = h.delay } };
}

impl Home {
    /// A line of which nothing was heard yet.
    pub(crate) fn fresh(alloc: Global, memory: LineData) -> Home
        ensures { result ≡ fresh memory }
    {
        Home {
            state: State::Uncached,
            memory,
            waiting: VecDeque::new(alloc),
            delay: 0,
        }
    }

    /// What the home's memory has.
    #[inline]
    pub(crate) fn memory(&self) -> LineData
        ensures { result ≡ self.now.memory }
    {
        self.memory
    }

    /// A request waits while a transaction is under way, and else is taken up at once.
    #[inline(always)]
    pub(crate) fn request(
        &mut self,
        site: Site<'_>,
        request: Request,
        out: &mut Out,
    ) -> Result<(), NoMemory>
        requires site { IsSite site.config.now site.tile }
        requires within { IsWithin site.config.now.tiles self.old }
        requires from_in_range { request.from ≤ site.config.now.tiles }
        ensures within { IsWithin site.entry.config.now.tiles self.new }
        ensures made { IfOk result (λ _. IsMade (requested site.entry.config.now site.entry.tile site.entry.line self.old request) self.new out.old.items out.new.items) }
    {
        if !self.state.is_busy() {
            return self.take_up(site, request, out);
        }
        self.waiting.push_back(request)?;
        Ok(())
    }

    /// A node answers.
    pub(crate) fn answer(
        &mut self,
        site: Site<'_>,
        from: NodeId,
        says: &Up,
        out: &mut Out,
    ) -> Result<(), NoMemory>
        requires site { IsSite site.config.now site.tile }
        requires within { IsWithin site.config.now.tiles self.old }
        ensures within { IsWithin site.entry.config.now.tiles self.new }
        ensures made { IfOk result (λ _. IsMadeIfAny (answered site.entry.config.now site.entry.tile site.entry.line self.old from says.now) self.old self.new out.old.items out.new.items) }
    {
        let Some(sends) = self.state.answered(from, says) else {
            return Ok(());
        };
        store(says, &mut self.memory);
        self.send(site.line, sends, out)?;
        self.settle(site, out)
    }

    /// Takes the waiting requests up in order, until a transaction is under way or none is left.
    fn settle(&mut self, site: Site<'_>, out: &mut Out) -> Result<(), NoMemory>
        requires site { IsSite site.config.now site.tile }
        requires within { IsWithin site.config.now.tiles self.old }
        ensures within { IsWithin site.entry.config.now.tiles self.new }
        ensures made { IfOk result (λ _. IsMade (settled site.entry.config.now site.entry.tile site.entry.line self.old self.old.waiting) self.new out.old.items out.new.items) }
    {
        'requests: while !self.state.is_busy() {
            let Some(request) = self.waiting.pop_front() else {
                break 'requests;
            };
            self.take_up(site, request, out)?;
        }
        Ok(())
    }

    /// Takes a request up. A transaction begins, and fixes the delay.
    #[inline(always)]
    fn take_up(&mut self, site: Site<'_>, request: Request, out: &mut Out) -> Result<(), NoMemory>
        requires site { IsSite site.config.now site.tile }
        requires within { IsWithin site.config.now.tiles self.old }
        requires from_in_range { request.from ≤ site.config.now.tiles }
        ensures home { self.new ≡ (taken_up site.entry.config.now site.entry.tile site.entry.line self.old request).home }
        ensures mail { IfOk result (λ _. out.new.items ≡ out.old.items ++ (taken_up site.entry.config.now site.entry.tile site.entry.line self.old request).mail) }
    {
        let sends = self.state.serve(request);
        let remote = self.state.farthest(site.config, site.tile);
        self.delay = delay(site.config, request.from, site.tile, remote);
        self.send(site.line, sends, out)
    }

    /// Sends what the row of the home's state sends.
    fn send(&self, line: Line, sends: Sends, out: &mut Out) -> Result<(), NoMemory>
        ensures { IfOk result (λ _. out.new.items ≡ out.old.items ++ sent_mail line self.now sends) }
    {
        match sends {
            Sends::Nothing => {}
            Sends::Invs => self.send_invs(line, out)?,
            Sends::Fetch { want, owner } => out.push((owner, fetch(line, want)))?,
            Sends::Data { want, to } => out.push((to, self.data(line, want)))?,
        }
        Ok(())
    }

    /// Asks each node that the state waits for to drop its copy.
    fn send_invs(&self, line: Line, out: &mut Out) -> Result<(), NoMemory>
        ensures { IfOk result (λ _. out.new.items ≡ out.old.items ++ map (λ node. (node, Msg.Inv line)) (awaited self.now.state)) }
    {
        let mut left = self.state.awaited();
        while let Some(node) = left.pop_first() {
            out.push((node, Msg::Inv { line }))?;
        }
        Ok(())
    }

    /// The line's data, to read or to write.
    #[inline]
    fn data(&self, line: Line, want: Want) -> Msg
        ensures { result ≡ data_message line self.now want }
    {
        let content = self.memory;
        let delay = self.delay;
        match want {
            Want::Read => Msg::DataS {
                line,
                content,
                delay,
            },
            Want::Write => Msg::DataM {
                line,
                content,
                delay,
            },
        }
    }
}

/// Asks the owner to share a line with a reader, or to give it up for a writer.
#[inline]
fn fetch(line: Line, want: Want) -> Msg
    ensures { result ≡ fetch_message line want }
{
    match want {
        Want::Read => Msg::Fetch { line },
        Want::Write => Msg::FetchInv { line },
    }
}

/// The data that an answer brings is the home's memory from then on, if it brings any.
#[inline]
fn store(says: &Up, memory: &mut LineData)
    ensures { memory.new ≡ memory_after says.now memory.old }
{
    match says {
        Up::HandsOver { content } => *memory = *content,
        Up::GivesUp { content } => *memory = *content,
        Up::Acknowledges | Up::Asks { .. } => {}
    }
}
