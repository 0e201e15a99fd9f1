//! An active thread of an epoch, and the tile from which it reported.

ghost use Rattle.std.specs.Prelude.{◌≡◌};

use sim_base::NodeId;

/// An active thread, and the tile from which it has reported in this epoch that it reached the limit, if it has.
#[derive(Clone, Copy, Debug, PartialEq, Eq)]
pub struct Member {
    /// The thread.
    pub thread: u32,
    /// The tile of its last report.
    pub reached: Option<NodeId>,
}

impl Member {
    ghost use Rattle.clock_policy.specs.Members.{unreached, with_report};

    /// A thread that hasn't reached the limit.
    pub fn unreached(thread: u32) -> Member
        ensures { result ≡ unreached thread }
    {
        Member {
            thread,
            reached: None,
        }
    }

    /// The member once a thread has reported from a tile.
    pub fn with_report(self, thread: u32, tile: NodeId) -> Member
        ensures { result ≡ with_report thread tile self }
    {
        if self.thread == thread {
            Member {
                reached: Some(tile),
                ..self
            }
        } else {
            self
        }
    }
}
