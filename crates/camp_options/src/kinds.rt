//! The ways to run a script that a command line can ask for.
ghost use Rattle.std.specs.Prelude.{◌≡◌, Ok};
ghost use Rattle.std.specs.Option.{option_map_or};
ghost use Rattle.camp_options.specs.Limits.{limits_in};
ghost use Rattle.camp_repo.specs.Limits.{default_bounds};

use crate::limits::{LimitsFault, read_limits};
use camp_repo::Limits;

/// The parsed options: how a script is run.
#[derive(Clone, Copy, PartialEq, Eq, Debug)]
pub struct Options<'a> {
    /// The clients run one after the other, in one thread.
    pub serial: bool,
    /// How often a call may lose against calls of other clients before it is answered `busy`.
    pub tries: u32,
    /// The history follows the answers.
    pub history: bool,
    /// The text given to `--limits`, if any.
    pub limits: Option<&'a str>,
}

impl Options<'_> {
    /// Returns the limits of the repository: the given ones, or else the default ones.
    pub fn limits(&self) -> Result<Limits, LimitsFault>
        ensures exact { result ≡ option_map_or (λ text. limits_in text.now) self.now.limits (Ok default_bounds) }
    {
        match self.limits {
            Some(text) => read_limits(text.as_bytes()),
            None => Ok(Limits::default()),
        }
    }
}
