//! Settings from a file in TOML, or the first fault of the file.

ghost use Rattle.std.specs.Prelude.{◌≡◌, IfOk};
ghost use Rattle.toml.specs.View.{table_view};
ghost use Rattle.sim_base.specs.Settings.{IsChecked};
ghost use Rattle.sim_config.specs.SettingsFile.{settings, TellsConfig, document, has_unknown_key};
ghost use Rattle.sim_config.specs.Inner.{TellsTable};

use crate::faults::ConfigFault;
use crate::keys::is_known;
use crate::values::{config_in, first_refused};
use sim_base::{Config, Field};
use std::alloc::Global;
use toml::Table;

/// The greatest length of a settings file that is read, in bytes.
pub const MOST_BYTES: usize = 65_536;

/// Reads the settings of a file in TOML. A key that is missing has its default ([`Config::defaults`]). A refusal names the
/// first that applies, in the order of [`Field`]: the file is longer than 65,536 bytes; it is no UTF-8 or no TOML; a key
/// at its top level is that of no setting; a setting's value isn't of its type (an integer within `u32` or `u64`, or a
/// policy's name: `"lax"`, `"barrier"`, `"p2p"`) or is out of its range ([`Config::check`]).
#[tactic(auto, unfolding(crate::specs::SettingsFile::settings))]
pub fn config_of(alloc: Global, bytes: &[u8]) -> Result<Config, ConfigFault>
    ensures settings { TellsConfig result (settings bytes.now) }
    ensures checked { IfOk result IsChecked }
{
    if bytes.len() > MOST_BYTES {
        return Err(ConfigFault::Bad {
            field: Field::Length,
        });
    }
    let table = table_of(alloc, bytes)?;
    if has_unknown_key(&table) {
        return Err(ConfigFault::Bad {
            field: Field::Unknown,
        });
    }
    let config = config_in(&table);
    match first_refused(&table, config.check().err()) {
        Some(field) => Err(ConfigFault::Bad { field }),
        None => Ok(config),
    }
}

/// The document that a file is.
fn table_of(alloc: Global, bytes: &[u8]) -> Result<Table, ConfigFault>
    ensures { TellsTable result (document bytes.now) }
{
    match toml::table_from_slice(alloc, bytes) {
        Ok(table) => Ok(table),
        Err(error) => {
            if error.is_memory() {
                Err(ConfigFault::NoMemory)
            } else {
                Err(ConfigFault::Bad { field: Field::Text })
            }
        }
    }
}

/// Whether a key at the top level is that of no setting.
fn has_unknown_key(table: &Table) -> bool
    ensures { result ≡ has_unknown_key (table_view table.now) }
{
    table.keys().any(|key| !is_known(key.as_str()))
}
