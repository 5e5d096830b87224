ghost use Rattle.std.specs.Prelude.{◌≡◌, IfSome};
ghost use Rattle.std.specs.List.{find};
ghost use Rattle.std.specs.Str.{bytes_eq};
ghost use Rattle.vsync.specs.Topics.{code_of, explanation_of};

use crate::texts;
use address::limits::Refusal;
use trace_props::Rule;
use view::ViewError;
use vsync_text::Fault;
use wire_values::WireError;

/// What `vsync explain` explains. Each topic has a code: a number that calls answer and commands print, or a word that `vsync check` prints.
#[derive(Clone, Copy)]
pub enum Topic {
    /// 1 to 9: a call or an input is refused (docs/CLI.md, "Refusals").
    Refusal(Refusal),
    /// 20 to 26: bytes are no packet (docs/WIRE.md).
    Packet(WireError),
    /// 30 to 33: a list of members is no view (docs/PROTOCOL.md, "Views").
    View(ViewError),
    /// 40 to 43: a line is wrong (docs/FORMATS.md, "Script text").
    Line(Fault),
    /// 50: a text is no settings, or they do not list the node.
    Settings,
    /// 51: a socket cannot be bound, or a host has no address.
    Socket,
    /// 52: a receive failed.
    Receive,
    /// D5 to D12: a trace breaks a rule (docs/GUARANTEES.md, "What check prints").
    Rule(Rule),
    /// `unordered`: the texts of processes have no order (docs/CLI.md, "Texts of several processes").
    Unordered,
}

/// Each topic once, in the order of their codes.
const TOPICS: [Topic; 36] = [
    Topic::Refusal(Refusal::NotConnected),
    Topic::Refusal(Refusal::Blocked),
    Topic::Refusal(Refusal::Busy),
    Topic::Refusal(Refusal::TooLong),
    Topic::Refusal(Refusal::AlreadyConnected),
    Topic::Refusal(Refusal::Closed),
    Topic::Refusal(Refusal::Memory),
    Topic::Refusal(Refusal::Exhausted),
    Topic::Refusal(Refusal::BadName),
    Topic::Packet(WireError::Short),
    Topic::Packet(WireError::NotOurs),
    Topic::Packet(WireError::Version),
    Topic::Packet(WireError::Kind),
    Topic::Packet(WireError::Length),
    Topic::Packet(WireError::Value),
    Topic::Packet(WireError::Trailing),
    Topic::View(ViewError::Empty),
    Topic::View(ViewError::TooMany),
    Topic::View(ViewError::Repeated),
    Topic::View(ViewError::NotFirst),
    Topic::Line(Fault::UnknownWord),
    Topic::Line(Fault::BadNumber),
    Topic::Line(Fault::MissingField),
    Topic::Line(Fault::LineTooLong),
    Topic::Settings,
    Topic::Socket,
    Topic::Receive,
    Topic::Rule(Rule::WellPlaced),
    Topic::Rule(Rule::RisingViews),
    Topic::Rule(Rule::SoundMessages),
    Topic::Rule(Rule::OneOrder),
    Topic::Rule(Rule::SameNext),
    Topic::Rule(Rule::Together),
    Topic::Rule(Rule::HandedBack),
    Topic::Rule(Rule::StateOfEntry),
    Topic::Unordered,
];

impl Topic {
    /// The code that stands for it in what commands print.
    pub fn code(self) -> &'static str
        ensures { result.now ≡ code_of self }
    {
        match self {
            Topic::Refusal(Refusal::NotConnected) => "1",
            Topic::Refusal(Refusal::Blocked) => "2",
            Topic::Refusal(Refusal::Busy) => "3",
            Topic::Refusal(Refusal::TooLong) => "4",
            Topic::Refusal(Refusal::AlreadyConnected) => "5",
            Topic::Refusal(Refusal::Closed) => "6",
            Topic::Refusal(Refusal::Memory) => "7",
            Topic::Refusal(Refusal::Exhausted) => "8",
            Topic::Refusal(Refusal::BadName) => "9",
            Topic::Packet(WireError::Short) => "20",
            Topic::Packet(WireError::NotOurs) => "21",
            Topic::Packet(WireError::Version) => "22",
            Topic::Packet(WireError::Kind) => "23",
            Topic::Packet(WireError::Length) => "24",
            Topic::Packet(WireError::Value) => "25",
            Topic::Packet(WireError::Trailing) => "26",
            Topic::View(ViewError::Empty) => "30",
            Topic::View(ViewError::TooMany) => "31",
            Topic::View(ViewError::Repeated) => "32",
            Topic::View(ViewError::NotFirst) => "33",
            Topic::Line(Fault::UnknownWord) => "40",
            Topic::Line(Fault::BadNumber) => "41",
            Topic::Line(Fault::MissingField) => "42",
            Topic::Line(Fault::LineTooLong) => "43",
            Topic::Settings => "50",
            Topic::Socket => "51",
            Topic::Receive => "52",
            Topic::Rule(Rule::WellPlaced) => "D5",
            Topic::Rule(Rule::RisingViews) => "D6",
            Topic::Rule(Rule::SoundMessages) => "D7",
            Topic::Rule(Rule::OneOrder) => "D8",
            Topic::Rule(Rule::SameNext) => "D9",
            Topic::Rule(Rule::Together) => "D10",
            Topic::Rule(Rule::HandedBack) => "D11",
            Topic::Rule(Rule::StateOfEntry) => "D12",
            Topic::Unordered => "unordered",
        }
    }

    /// Its explanation, in three lines: what it means, its cause, and what to do.
    pub fn explanation(self) -> &'static str
        ensures { result.now ≡ explanation_of self }
    {
        match self {
            Topic::Refusal(Refusal::NotConnected) => texts::NOT_CONNECTED,
            Topic::Refusal(Refusal::Blocked) => texts::BLOCKED,
            Topic::Refusal(Refusal::Busy) => texts::BUSY,
            Topic::Refusal(Refusal::TooLong) => texts::TOO_LONG,
            Topic::Refusal(Refusal::AlreadyConnected) => texts::ALREADY_CONNECTED,
            Topic::Refusal(Refusal::Closed) => texts::CLOSED,
            Topic::Refusal(Refusal::Memory) => texts::MEMORY,
            Topic::Refusal(Refusal::Exhausted) => texts::EXHAUSTED,
            Topic::Refusal(Refusal::BadName) => texts::BAD_NAME,
            Topic::Packet(WireError::Short) => texts::SHORT,
            Topic::Packet(WireError::NotOurs) => texts::NOT_OURS,
            Topic::Packet(WireError::Version) => texts::VERSION,
            Topic::Packet(WireError::Kind) => texts::KIND,
            Topic::Packet(WireError::Length) => texts::LENGTH,
            Topic::Packet(WireError::Value) => texts::VALUE,
            Topic::Packet(WireError::Trailing) => texts::TRAILING,
            Topic::View(ViewError::Empty) => texts::EMPTY,
            Topic::View(ViewError::TooMany) => texts::TOO_MANY,
            Topic::View(ViewError::Repeated) => texts::REPEATED,
            Topic::View(ViewError::NotFirst) => texts::NOT_FIRST,
            Topic::Line(Fault::UnknownWord) => texts::UNKNOWN_WORD,
            Topic::Line(Fault::BadNumber) => texts::BAD_NUMBER,
            Topic::Line(Fault::MissingField) => texts::MISSING_FIELD,
            Topic::Line(Fault::LineTooLong) => texts::LINE_TOO_LONG,
            Topic::Settings => texts::CONFIG,
            Topic::Socket => texts::BIND,
            Topic::Receive => texts::RECEIVE,
            Topic::Rule(Rule::WellPlaced) => texts::WELL_PLACED,
            Topic::Rule(Rule::RisingViews) => texts::RISING_VIEWS,
            Topic::Rule(Rule::SoundMessages) => texts::SOUND_MESSAGES,
            Topic::Rule(Rule::OneOrder) => texts::ONE_ORDER,
            Topic::Rule(Rule::SameNext) => texts::SAME_NEXT,
            Topic::Rule(Rule::Together) => texts::TOGETHER,
            Topic::Rule(Rule::HandedBack) => texts::HANDED_BACK,
            Topic::Rule(Rule::StateOfEntry) => texts::STATE_OF_ENTRY,
            Topic::Unordered => texts::UNORDERED,
        }
    }
}

// The first of these topics that has this code.
fn first_with(topics: &[Topic], code: &str) -> Option<Topic>
    ensures { result ≡ find (λ t. bytes_eq (code_of t) code.now) topics.now }
{
    let (first, rest) = topics.split_first()?;
    if first.code() == code {
        return Some(*first);
    }
    first_with(rest, code)
}

/// The topic with this code; none if no topic has it.
pub fn topic_of(code: &str) -> Option<Topic>
    ensures each { (t : Topic) → code.now ≡ code_of t → result ≡ Some t }
    ensures other { IfSome result (λ t. code.now ≡ code_of t) }
{
    first_with(&TOPICS, code)
}
