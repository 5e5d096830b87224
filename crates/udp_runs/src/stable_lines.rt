//! The line by which a node tells how many messages of its view are stable.

ghost use Rattle.std.specs.Prelude.{◌≡◌, ◌++◌, OnOk, OnErr};
ghost use Rattle.udp_runs.specs.OwnLines.{stable_line};

use address::{Address, ViewId};
use std::alloc::AllocError;
use vsync_text::{Part, put_parts};

/// Appends `stable MEMBER VIEW COUNT` with its line feed: so many messages of its view are stable, as far as the member knows.
///
/// # Errors
///
/// Where memory is refused, the buffer is left as it was.
pub(crate) fn append_stable(
    out: &mut Vec<u8>,
    member: &Address,
    view: &ViewId,
    count: u64,
) -> Result<(), AllocError>
    ensures text { OnOk result (out.new.items ≡ out.old.items ++ stable_line member.now view.now count) }
    ensures err { OnErr result (out.new.items ≡ out.old.items) }
{
    let before = out.len();
    let result = put_parts(
        out,
        &[
            Part::Text(b"stable "),
            Part::Address(*member),
            Part::Text(b" "),
            Part::View(*view),
            Part::Text(b" "),
            Part::Number(count),
            Part::Text(b"\n"),
        ],
    );
    if result.is_err() {
        out.truncate(before);
    }
    result
}
