ghost use Rattle.std.specs.Prelude.{◌≡◌, drop};
ghost use Rattle.std.specs.Bool.{Decides};
ghost use Rattle.std.specs.Option.{option_copied};
ghost use Rattle.trace_props.specs.declared.event.Event.TheVariants.{Installed};
ghost use Rattle.trace_props.specs.Agreeing.{MayHandBack};
ghost use Rattle.trace_rules.specs.Known.{sent_kept};

use super::messages::is_numbered;
use crate::known::{InView, Past, last, sent_at, sent_count};
use trace_props::{Install, Numbered};

// Whether messages are all that a member sent in a view past an index.
fn is_rest(kept: Option<&InView>, start: usize, messages: &[Numbered]) -> bool
    ensures { Decides result (messages.now ≡ drop start (sent_kept (option_copied kept.entry))) }
{
    if sent_count(kept).saturating_sub(start) != messages.len() {
        return false;
    }
    for (index, message) in messages.iter().enumerate() {
        if !is_numbered(
            sent_at(kept, start + index),
            message.number,
            &message.payload,
        ) {
            return false;
        }
    }
    true
}

/// Whether who enters gets back what it sent past its own messages that it delivered.
pub fn may_hand_back(past: &Past, install: &Install) -> bool
    ensures { Decides result (MayHandBack past.now (Installed install.now)) }
{
    let messages = install.handed_back.as_slice();
    match install.previous {
        None => messages.is_empty(),
        Some(previous) => {
            let kept = past.in_view(install.member, previous);
            is_rest(kept, last(kept, install.member) as usize, messages)
        }
    }
}
