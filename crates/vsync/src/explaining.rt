//! The command `explain`.

ghost use Rattle.std.specs.Prelude.{◌≡◌, ◌≢◌};
ghost use Rattle.commands.specs.Checks.{rule_code};
ghost use Rattle.vsync_text.specs.Outcomes.{Ends};
ghost use Rattle.vsync.specs.Topics.{code_of, explanation_of};
ghost use Rattle.vsync.specs.declared.topic.Topic.{Topic};
ghost use Rattle.trace_props.specs.declared.verdict.Rule.{Rule};
ghost use Rattle.vsync.specs.Ends.{EndsBy};

use crate::programs::{complain, mistaken};
use crate::topic::{Topic, topic_of};
use std::io::{self, Write};
use vsync_text::{Status, end_with};

/// Writes the explanation of a topic.
fn explain_to<W: Write>(topic: Topic, writer: &mut W) -> Status
    ensures { Ends (W.contents writer.old) (W.contents writer.new) (explanation_of topic) Status.Done result }
{
    end_with(writer, topic.explanation().as_bytes(), Status::Done)
}

/// Does `explain`: prints the explanation of the topic with this code. If no topic has it, the words are wrong: the standard error says so, status 2.
pub(crate) fn explain_code(rt: &HostRuntime, code: &str) -> Status
    ensures known { (topic : Topic) → code.now ≡ code_of topic → EndsBy Status.Done result }
    ensures rules { (rule : Rule) → code.now ≡ rule_code rule → EndsBy Status.Done result }
    ensures unknown { ((topic : Topic) → code.now ≢ code_of topic) → result ≡ Status.Usage }
{
    let Some(topic) = topic_of(code) else {
        return mistaken(
            rt,
            "invalid value for '<CODE>': no refusal has this number, and check prints no such word",
        );
    };
    let mut writer = io::writer(rt);
    match explain_to(topic, &mut writer) {
        Status::Outside => complain(rt, "cannot write", "the standard output"),
        status => status,
    }
}
