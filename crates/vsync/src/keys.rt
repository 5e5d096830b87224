//! The key of a group.

ghost use Rattle.std.specs.Prelude.{◌≤◌, length, IfErr, IfOk, IfSome};
ghost use Rattle.vsync.specs.Settings.{EndsWithout};

use crate::programs::bytes_at;
use crate::udp_programs::refuse;
use frames::{LEAST_KEY, MOST_KEY};
use udp_net::SettingsError;
use vsync_text::Status;

// The key of a file: all of its bytes; or the status with which the program ends.
fn key_in(rt: &HostRuntime, path: &str) -> Result<Vec<u8>, Status>
    ensures key { IfOk result (λ key. (16 ≤ length key.items) × (length key.items ≤ 1024)) }
    ensures err { IfErr result EndsWithout }
{
    let key = match bytes_at(rt, path) {
        Ok(key) => key,
        Err(status) => return Err(status),
    };
    if key.len() < LEAST_KEY || key.len() > MOST_KEY {
        let _ = eprintln!(rt;
            "vsync: a key has {LEAST_KEY} to {MOST_KEY} bytes: there is none in {path}"
        );
        return Err(refuse(rt, SettingsError::Config.number()));
    }
    Ok(key)
}

/// The key of the file of a path, if there is one: 16 to 1,024 bytes, all that the file has. Else the status with which the program ends: refused with 50 where the file
/// has fewer or more bytes.
pub(crate) fn key_of(rt: &HostRuntime, path: Option<&str>) -> Result<Option<Vec<u8>>, Status>
    ensures key { IfOk result (λ k. IfSome k (λ key. (16 ≤ length key.items) × (length key.items ≤ 1024))) }
    ensures err { IfErr result EndsWithout }
{
    let Some(path) = path else {
        return Ok(None);
    };
    match key_in(rt, path) {
        Ok(key) => Ok(Some(key)),
        Err(status) => Err(status),
    }
}
