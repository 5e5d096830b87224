ghost use Rattle.std.specs.Prelude.{◌≡◌};
ghost use Rattle.std.specs.Option.{option_copied};
ghost use Rattle.vsync_text.specs.Fields.{last, node_field, address_field};
ghost use Rattle.vsync_text.specs.Script.{alone, paired, node_and_address, sent, word_of, event_of, event_in_line};
ghost use Rattle.vsync_text.specs.Texts.{is_skipped, IsReadUnlessRefused};

use crate::field::{address_field, first_field, lone_number, node_field};
use crate::{Fault, Payloads, Unheard, is_word};
use address::limits::{GREATEST_NUMBER, SCRIPT_LINE};
use address::{Address, Node};
use std::alloc::Global;
use world_model::WorldEvent;

/// A word with which a line of a script begins.
#[derive(Drop)]
pub(crate) enum Word {
    /// Behind it stands a node alone.
    Node(NodeWord),
    /// Behind it stand a node and an address.
    Pair(PairWord),
    Send,
    Deliver,
}

#[derive(Drop)]
pub(crate) enum NodeWord {
    Start,
    Create,
    Tick,
    Leave,
    Crash,
}

#[derive(Drop)]
pub(crate) enum PairWord {
    Join,
    Suspect,
    Hint,
}

pub(crate) fn word_of(name: &[u8]) -> Option<Word>
    ensures { result ≡ word_of name.now }
{
    if is_word(name, b"start") {
        Some(Word::Node(NodeWord::Start))
    } else if is_word(name, b"create") {
        Some(Word::Node(NodeWord::Create))
    } else if is_word(name, b"join") {
        Some(Word::Pair(PairWord::Join))
    } else if is_word(name, b"send") {
        Some(Word::Send)
    } else if is_word(name, b"deliver") {
        Some(Word::Deliver)
    } else if is_word(name, b"tick") {
        Some(Word::Node(NodeWord::Tick))
    } else if is_word(name, b"suspect") {
        Some(Word::Pair(PairWord::Suspect))
    } else if is_word(name, b"hint") {
        Some(Word::Pair(PairWord::Hint))
    } else if is_word(name, b"leave") {
        Some(Word::Node(NodeWord::Leave))
    } else if is_word(name, b"crash") {
        Some(Word::Node(NodeWord::Crash))
    } else {
        None
    }
}

/// The node with which a line ends.
#[tactic(auto, unfolding(crate::specs::Fields::last, crate::specs::Fields::end_at))]
fn lone_node(rest: Option<&[u8]>) -> Result<Node, Unheard>
    ensures { IsReadUnlessRefused (λ x. x) result (last (node_field (option_copied rest.entry))) }
{
    match node_field(rest) {
        Ok((node, None)) => Ok(node),
        Ok((_, Some(_))) => Err(Unheard::Fault(Fault::BadNumber)),
        Err(fault) => Err(Unheard::Fault(fault)),
    }
}

/// The node and the address with which a line ends.
#[tactic(auto, unfolding(crate::specs::Fields::last, crate::specs::Fields::end_at))]
fn node_and_address(rest: Option<&[u8]>) -> Result<(Node, Address), Unheard>
    ensures { IsReadUnlessRefused (λ x. x) result (node_and_address (option_copied rest.entry)) }
{
    match node_field(rest) {
        Err(fault) => Err(Unheard::Fault(fault)),
        Ok((node, behind)) => match address_field(behind) {
            Ok((address, None)) => Ok((node, address)),
            Ok(_) => Err(Unheard::Fault(Fault::BadNumber)),
            Err(fault) => Err(Unheard::Fault(fault)),
        },
    }
}

/// The event of `send N TEXT`.
fn sent<P: Payloads>(alloc: Global, rest: Option<&[u8]>) -> Result<WorldEvent, Unheard>
    ensures { IsReadUnlessRefused (λ x. x) result (sent P.payload_of (node_field (option_copied rest.entry))) }
{
    match node_field(rest) {
        Err(fault) => Err(Unheard::Fault(fault)),
        Ok((node, behind)) => {
            let Some(text) = behind else {
                return Err(Unheard::Fault(Fault::MissingField));
            };
            Ok(WorldEvent::Send(node, P::payload(alloc, text)?))
        }
    }
}

/// The event of a word and a node.
fn alone(word: NodeWord, node: Node) -> WorldEvent
    ensures { result ≡ alone word node }
{
    match word {
        NodeWord::Start => WorldEvent::Start(node),
        NodeWord::Create => WorldEvent::Create(node),
        NodeWord::Tick => WorldEvent::Tick(node),
        NodeWord::Leave => WorldEvent::Leave(node),
        NodeWord::Crash => WorldEvent::Crash(node),
    }
}

/// The event of a word, a node and an address.
fn paired(word: PairWord, node: Node, address: Address) -> WorldEvent
    ensures { result ≡ paired word node address }
{
    match word {
        PairWord::Join => WorldEvent::Join(node, address),
        PairWord::Suspect => WorldEvent::Suspect(node, address),
        PairWord::Hint => WorldEvent::MergeHint(node, address),
    }
}

/// The event of a word and of what is left behind it.
pub(crate) fn event_of<P: Payloads>(
    alloc: Global,
    word: Word,
    rest: Option<&[u8]>,
) -> Result<WorldEvent, Unheard>
    ensures { IsReadUnlessRefused (λ x. x) result (event_of P.payload_of word (option_copied rest.entry)) }
{
    match word {
        Word::Node(word) => Ok(alone(word, lone_node(rest)?)),
        Word::Pair(word) => {
            let (node, address) = node_and_address(rest)?;
            Ok(paired(word, node, address))
        }
        Word::Send => sent::<P>(alloc, rest),
        Word::Deliver => Ok(WorldEvent::Deliver(lone_number(1, GREATEST_NUMBER, rest)?)),
    }
}

/// Whether a line says nothing: it is empty, or begins with `#`.
pub fn is_skipped(line: &[u8]) -> bool
    ensures { result ≡ is_skipped line.now }
{
    match line.first() {
        None => true,
        Some(first) => *first == b'#',
    }
}

/// The event of a line that is not skipped.
pub(crate) fn event_in_line<P: Payloads>(alloc: Global, line: &[u8]) -> Result<WorldEvent, Unheard>
    ensures { IsReadUnlessRefused (λ x. x) result (event_in_line P.payload_of line.now) }
{
    if line.len() > SCRIPT_LINE {
        return Err(Unheard::Fault(Fault::LineTooLong));
    }
    let (name, rest) = first_field(line);
    match word_of(name) {
        None => Err(Unheard::Fault(Fault::UnknownWord)),
        Some(word) => event_of::<P>(alloc, word, rest),
    }
}
