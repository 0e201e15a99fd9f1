//! Requests that wait for the control server, and the futex wait whose word it reads.

ghost use Rattle.std.specs.Prelude.{◌≡◌};
ghost use Rattle.control_server.specs.Inner.{word_of};

use serving::Request;
use sim_base::NodeId;
use std::marker::Model;
use wire_msg::Call;

/// Who asks for something to be served.
#[derive(Clone, Copy)]
pub(crate) struct Asker {
    /// The thread.
    pub(crate) thread: u32,
    /// The node that passed on what it asks: its tile, or for an exit the local server of its host.
    pub(crate) from: NodeId,
    /// The thread's clock then, in cycles.
    pub(crate) time: u64,
}

/// A request that waits to be served.
#[derive(Drop)]
pub(crate) struct Waiting {
    /// Who asks.
    pub(crate) asker: Asker,
    /// What is asked.
    pub(crate) request: Request,
}

impl Model for Waiting {
    ghost use Rattle.control_server.specs.Control.{Waiting};

    ghost Value = { Waiting };

    ghost view = { λ q. record { thread = q.asker.thread; from = q.asker.from; time = q.asker.time; request = q.request } };
}

/// A futex wait whose word is being read.
#[derive(Clone, Copy)]
pub(crate) struct Check {
    /// The thread.
    pub(crate) thread: u32,
    /// The tile that sent it.
    pub(crate) from: NodeId,
    /// The address of the word.
    pub(crate) addr: u64,
    /// The value that the thread waits at.
    pub(crate) value: u32,
}

impl Model for Check {
    ghost use Rattle.control_server.specs.Control.{Check};

    ghost Value = { Check };

    ghost view = { λ c. record { thread = c.thread; from = c.from; addr = c.addr; value = c.value } };

    ghost inverse = { λ c. record { thread = c.thread; from = c.from; addr = c.addr; value = c.value } };
}

/// The word and the value of a futex wait, if a request is one.
pub(crate) fn word_of(request: &Request) -> Option<(u64, u32)>
    ensures { result ≡ word_of request.now }
{
    match request {
        Request::Call {
            call: Call::FutexWait { addr, value },
        } => Some((*addr, *value)),
        _ => None,
    }
}
