//! What a join comes to, by its target's fate.

ghost use Rattle.std.specs.Prelude.{◌≡◌};
ghost use Rattle.serving.specs.Join.{join_by, joiner_by};

use crate::control_data::{Fate, Join};

/// What a join by `caller` comes to, where the target's number is `target` and `fate` is what has become of that thread,
/// if it ever began.
pub fn join_by(caller: u32, target: u64, fate: Option<Fate>) -> Join
    ensures { result ≡ join_by caller target fate }
{
    match fate {
        None | Some(Fate::Exited { joined: true, .. }) => Join::NoThread,
        _ if target == u64::from(caller) => Join::Invalid,
        Some(Fate::Exited { code, .. }) => Join::Code { code },
        Some(Fate::Live { joiner: Some(_) }) => Join::Invalid,
        Some(Fate::Live { joiner: None }) => Join::Parked,
    }
}

/// The thread that is parked joining one with this fate, if one is.
pub fn joiner_by(fate: Fate) -> Option<u32>
    ensures { result ≡ joiner_by fate }
{
    match fate {
        Fate::Live { joiner } => joiner,
        Fate::Exited { .. } => None,
    }
}
