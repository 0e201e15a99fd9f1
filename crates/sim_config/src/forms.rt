//! What words may follow a command.

/// The names of a command's positionals, in order; of its options, each of which has a value; and of its flags, which
/// have none.
#[derive(Drop)]
pub(crate) struct Form {
    pub(crate) positionals: &'static [&'static str],
    pub(crate) options: &'static [&'static str],
    pub(crate) flags: &'static [&'static str],
}
