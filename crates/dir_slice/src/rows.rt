//! The rows of the directory's table: for each state of a line and each message, the next state and what is sent.
ghost use Rattle.std.specs.Prelude.{◌≡◌, Some};
ghost use Rattle.dir_slice.specs.Inner.{state_of, row_of, IsNext};
ghost use Rattle.dir_slice.specs.Line.{Modified, request_row, invalidate, answer_row, ack_row, fetch_row, fetched_by, put_row, put_by, given};

use crate::states::{Request, State};
use node_set::NodeSet;
use sim_base::NodeId;
use wire_msg::{Up, Want};

/// What a row of the directory's table sends.
#[derive(Clone, Copy)]
pub(crate) enum Sends {
    /// Nothing.
    Nothing,
    /// To each node that the new state waits for, to drop its copy.
    Invs,
    /// To the owner, to share the line with a reader, or to give it up for a writer.
    Fetch { want: Want, owner: NodeId },
    /// The line, to read or to write.
    Data { want: Want, to: NodeId },
}

impl State {
    /// Goes to the state of the row for a request, which is served while no transaction is under way. The result is
    /// what the row sends.
    #[inline]
    pub(crate) fn serve(&mut self, request: Request) -> Sends
        ensures { row_of (state_of self.new) result ≡ request_row (state_of self.old) request.want request.from }
    {
        match self {
            State::Uncached => self.grant(request.want, request.from),
            State::Shared { sharers } => {
                if matches!(request.want, Want::Write) {
                    let mut others = sharers.copy();
                    others.remove(request.from);
                    return self.invalidate(request.from, others);
                }
                sharers.insert(request.from);
                Sends::Data {
                    want: Want::Read,
                    to: request.from,
                }
            }
            State::Modified { owner } => {
                let owner = *owner;
                self.fetch(owner, request)
            }
            _ => Sends::Nothing,
        }
    }

    /// Goes to the state of the row for what a node tells the home, where that is an answer and the table has a row for it.
    /// The result is then what the row sends.
    #[inline]
    pub(crate) fn answered(&mut self, from: NodeId, says: &Up) -> Option<Sends>
        ensures { IsNext result (state_of self.old) (state_of self.new) (answer_row (state_of self.old) from says.now) }
    {
        match says {
            Up::Acknowledges => self.acked(from),
            Up::HandsOver { .. } => self.fetched(from),
            Up::GivesUp { .. } => self.put(from),
            Up::Asks { .. } => None,
        }
    }

    /// The row for an answer to an `Inv`: a copy was dropped, and after the last one the writer gets the line.
    fn acked(&mut self, from: NodeId) -> Option<Sends>
        ensures { IsNext result (state_of self.old) (state_of self.new) (ack_row (state_of self.old) from) }
    {
        match self {
            State::BusyInv { requester, left } => {
                left.remove(from);
                if !left.is_empty() {
                    return Some(Sends::Nothing);
                }
                let requester = *requester;
                Some(self.grant_alone(requester))
            }
            _ => None,
        }
    }

    /// The row for the owner's answer to a fetch.
    fn fetched(&mut self, from: NodeId) -> Option<Sends>
        ensures { IsNext result (state_of self.old) (state_of self.new) (fetch_row (state_of self.old) from) }
    {
        match *self {
            State::BusyFetch {
                want,
                requester,
                owner,
            } if owner == from => Some(self.fetched_by(want, requester, owner)),
            _ => None,
        }
    }

    /// The row for an owner that gives the line up by itself, perhaps while it is asked for it.
    fn put(&mut self, from: NodeId) -> Option<Sends>
        ensures { IsNext result (state_of self.old) (state_of self.new) (put_row (state_of self.old) from) }
    {
        match *self {
            State::Modified { owner } if owner == from => {
                *self = State::Uncached;
                Some(Sends::Nothing)
            }
            State::BusyFetch {
                want,
                requester,
                owner,
            } if owner == from => Some(self.grant(want, requester)),
            _ => None,
        }
    }

    /// A line that nobody holds goes to a reader or to a writer.
    #[inline]
    fn grant(&mut self, want: Want, to: NodeId) -> Sends
        ensures { row_of (state_of self.new) result ≡ put_by want to }
    {
        if matches!(want, Want::Write) {
            return self.grant_alone(to);
        }
        let sharers = NodeSet::of(to);
        *self = State::Shared { sharers };
        Sends::Data {
            want: Want::Read,
            to,
        }
    }

    /// A writer gets the line alone.
    #[inline]
    fn grant_alone(&mut self, to: NodeId) -> Sends
        ensures { row_of (state_of self.new) result ≡ given (Modified to) Want.Write to }
    {
        *self = State::Modified { owner: to };
        Sends::Data {
            want: Want::Write,
            to,
        }
    }

    /// A writer waits until the others have dropped their copies, if there are any.
    fn invalidate(&mut self, requester: NodeId, left: NodeSet) -> Sends
        ensures { row_of (state_of self.new) result ≡ invalidate requester left }
    {
        if left.is_empty() {
            return self.grant_alone(requester);
        }
        *self = State::BusyInv { requester, left };
        Sends::Invs
    }

    /// The owner is asked for the line.
    #[inline]
    fn fetch(&mut self, owner: NodeId, request: Request) -> Sends
        ensures { row_of (state_of self.new) result ≡ request_row (Modified owner) request.want request.from }
    {
        *self = State::BusyFetch {
            want: request.want,
            requester: request.from,
            owner,
        };
        Sends::Fetch {
            want: request.want,
            owner,
        }
    }

    /// The owner answered a fetch: a reader shares the line with it, a writer gets it alone.
    fn fetched_by(&mut self, want: Want, requester: NodeId, owner: NodeId) -> Sends
        ensures { row_of (state_of self.new) result ≡ fetched_by want requester owner }
    {
        if matches!(want, Want::Write) {
            return self.grant_alone(requester);
        }
        let mut sharers = NodeSet::of(owner);
        sharers.insert(requester);
        *self = State::Shared { sharers };
        Sends::Data {
            want: Want::Read,
            to: requester,
        }
    }
}
