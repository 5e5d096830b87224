//! The explanations, each once: what a code means, its cause, and what to do.

// ---- Refusals of a call or of an input (`address::limits::Refusal`).

pub(crate) const NOT_CONNECTED: &str = "\
1, not connected: the member is in no view, or no member was ever started at the node.\n\
Cause: it has not made a group yet, and no group has let it in yet.\n\
To do: send again after its first installed view. In a script, put start and create or join before this line.\n";

pub(crate) const BLOCKED: &str = "\
2, blocked: the member may not send until it has installed its next view.\n\
Cause: it has promised a next view, since a member came, went or was suspected.\n\
To do: keep the message, and send it again after the next installed view.\n";

pub(crate) const BUSY: &str = "\
3, busy: 8 of the member's own messages in this view have not been delivered to it yet.\n\
Cause: it sends faster than its group delivers, or its coordinator does not answer.\n\
To do: keep the message, and send it again when one of the 8 has been delivered.\n";

pub(crate) const TOO_LONG: &str = "\
4, too long: the payload has more than 512 bytes.\n\
Cause: the message, or the command of a map or of locks that it encodes, is too long for one message.\n\
To do: send less, or several messages.\n";

pub(crate) const ALREADY_CONNECTED: &str = "\
5, already connected: the member has a group already, or a member runs at the node already.\n\
Cause: a create after a create or a join, a join of a member that has a view, or a start of a node whose member runs.\n\
To do: leave this call out. For another group, let the member leave, and start the node's next incarnation.\n";

pub(crate) const CLOSED: &str = "\
6, closed: the member has ended, before this call or by it.\n\
Cause: it left, it crashed, or it was given a state that its receiver cannot read: then its group keeps another kind of state.\n\
To do: start the node again with a greater incarnation. All nodes of a group keep the same kind of state.\n";

pub(crate) const MEMORY: &str = "\
7, no memory: memory was refused in a step of the member, and it has crashed.\n\
Cause: the machine has too little memory, or the process has a limit.\n\
To do: give it more, and start the node again with a greater incarnation. The others of its group go on.\n";

pub(crate) const EXHAUSTED: &str = "\
8, used up: a number has reached its greatest value.\n\
Cause: the node had its last incarnation, 4294967295; or a counter of messages or of views is at 2^62.\n\
To do: use another number for the node. Messages are numbered from 1 again in the next view.\n";

pub(crate) const BAD_NAME: &str = "\
9, bad name: the bytes are no name of a group.\n\
Cause: the name is empty, has more than 32 bytes, or has another byte than letters, digits, - and _ of ASCII.\n\
To do: connect with a name of that form, the same at all nodes.\n";

// ---- Bytes that are no packet (`wire_values::WireError`).

pub(crate) const SHORT: &str = "\
20, short: the datagram ends before a field of its packet does.\n\
Cause: it was cut on its way, or another program sent it.\n\
To do: nothing, the datagram is dropped and counted, and a lost packet comes again.\n";

pub(crate) const NOT_OURS: &str = "\
21, not ours: the datagram does not begin with VS.\n\
Cause: another program sends to this port.\n\
To do: nothing, the datagram is dropped and counted, and a lost packet comes again. Look for that program if there are many.\n";

pub(crate) const VERSION: &str = "\
22, version: the packet has another version of the format than this program.\n\
Cause: the sender runs another version of the program.\n\
To do: run one version at all nodes of a group.\n";

pub(crate) const KIND: &str = "\
23, kind: no kind of packet has this number.\n\
Cause: the datagram was damaged, or another program sent it.\n\
To do: nothing, the datagram is dropped and counted, and a lost packet comes again.\n";

pub(crate) const LENGTH: &str = "\
24, length: a length in the packet is out of its range, or the datagram is too long.\n\
Cause: the datagram was damaged, or another program sent it.\n\
To do: nothing, the datagram is dropped and counted, and a lost packet comes again.\n";

pub(crate) const VALUE: &str = "\
25, value: a value in the packet is out of its range.\n\
Cause: the datagram was damaged, or another program sent it.\n\
To do: nothing, the datagram is dropped and counted, and a lost packet comes again.\n";

pub(crate) const TRAILING: &str = "\
26, trailing: a byte follows the last field of the packet.\n\
Cause: the datagram was damaged, or another program sent it.\n\
To do: nothing, the datagram is dropped and counted, and a lost packet comes again.\n";

// ---- Lists that are no view (`view::ViewError`).

pub(crate) const EMPTY: &str = "\
30, empty: the list has no member, and a view has 1 to 16 of them.\n\
Cause: a program made a view of an empty list.\n\
To do: give it the members in order of rank, the creator of the view's id first.\n";

pub(crate) const TOO_MANY: &str = "\
31, too many: the list has more than 16 members.\n\
Cause: a program made a view of more members than a group may have.\n\
To do: use groups of at most 16 members.\n";

pub(crate) const REPEATED: &str = "\
32, repeated: an address is in the list twice.\n\
Cause: a program made a view of a list that it did not check.\n\
To do: list each member once.\n";

pub(crate) const NOT_FIRST: &str = "\
33, not first: the first member of the list is not the creator of the view's id.\n\
Cause: a program made a view of a list that is not in order of rank.\n\
To do: list the creator first; it is the coordinator of the view.\n";

// ---- Lines of a script or of a trace (`vsync_text::Fault`).

pub(crate) const UNKNOWN_WORD: &str = "\
40, unknown word: the line begins with no word that is known there.\n\
Cause: a misspelt word, a space before the word, deliver or tick in a script of vsync udp, or rounds in any other script.\n\
To do: correct the line whose number is before the 40. Lines count from 1, empty ones too.\n";

pub(crate) const BAD_NUMBER: &str = "\
41, bad field: a field is not of its form or out of its range, or there is one field too many.\n\
Cause: a node is 1 to 65535, an address as 3.1; no number has a leading zero and no field is empty; a space at the end is a field too many.\n\
To do: correct the line. Under vsync map and vsync locks, and with --map and --locks, what is sent must be a command.\n";

pub(crate) const MISSING_FIELD: &str = "\
42, missing field: the line ends before one of its fields.\n\
Cause: a field, or the one space before it, was left out.\n\
To do: complete the line. docs/FORMATS.md lists the fields of each line.\n";

pub(crate) const LINE_TOO_LONG: &str = "\
43, line too long: the line has more than 4096 bytes in a script, or more than 2200000 in a trace.\n\
Cause: a text that is no script or no trace, or one whose line feeds are lost.\n\
To do: look whether this is the right file, and whether each event has its own line.\n";

// ---- Settings and sockets (`udp_net`).

pub(crate) const CONFIG: &str = "\
50, settings: the text is no settings of a group, or the settings do not list the node.\n\
Cause: no TOML, a key too many or missing, a value out of its range, a number or a port that two nodes share, or a node that is not in the file.\n\
To do: correct the file. docs/CLI.md, \"Settings\", has its form. All nodes of a group use the same settings.\n";

pub(crate) const BIND: &str = "\
51, socket: the node's socket cannot be bound, or the name of a host has no address.\n\
Cause: another process has the port (perhaps the node's last one), --bind names an address of another host, or a name cannot be resolved.\n\
To do: end that process, or correct the port in the settings or the host.\n";

pub(crate) const RECEIVE: &str = "\
52, receive: the system refused to receive from the node's socket.\n\
Cause: an error of the system at the socket. It is counted (--stats), and not printed.\n\
To do: nothing, the node goes on. Look at the network of the machine if the count grows.\n";

// ---- Rules of a trace (`trace_props::Rule`), and texts without an order.

pub(crate) const WELL_PLACED: &str = "\
D5, well placed: an event of a member happens while it runs, and a send or a delivery names its current view.\n\
Broken: the event at this place is one of a member that has not started or has ended, names another view, or is a send of a blocked member.\n\
To do: look for lines that were cut or edited, and for an incarnation that two processes used.\n";

pub(crate) const RISING_VIEWS: &str = "\
D6, rising views: a member installs views that it is in, their ids rise, and the same id has the same members everywhere.\n\
Broken: the view installed at this place lacks the member, is not above its last one, names another previous view, or has other members.\n\
To do: look for an incarnation that two processes used, and for texts of two groups.\n";

pub(crate) const SOUND_MESSAGES: &str = "\
D7, sound messages: messages are numbered 1, 2, .. in a view, and are delivered once, in their sender's order, after they were sent.\n\
Broken: the message at this place leaves a gap, was not sent before, or comes again or out of turn.\n\
To do: give check --processes the text of each process; look for lines that were cut or edited.\n";

pub(crate) const ONE_ORDER: &str = "\
D8, one order: a member delivers in a view a beginning of what the view's coordinator delivers there.\n\
Broken: the message delivered at this place is not the coordinator's next one, or the coordinator has not delivered it yet.\n\
To do: give check --processes the coordinator's text too; look for lines that were cut or edited.\n";

pub(crate) const SAME_NEXT: &str = "\
D9, same next view, same list: members that go from one view to the same next view delivered the same messages.\n\
Broken: the member that installs the view at this place delivered more or less than one that came the same way.\n\
To do: look for deliveries that were cut from a text, and for an incarnation that two processes used.\n";

pub(crate) const TOGETHER: &str = "\
D10, together: an install names those members of the view who come from the same view as the member.\n\
Broken: the set at this place lacks one that came the same way (perhaps the member itself), or has one that did not.\n\
To do: look for installs that were cut from a text or edited, and for an incarnation that two processes used.\n";

pub(crate) const HANDED_BACK: &str = "\
D11, handed back: a member that goes to the next view gets back its own messages that were not delivered to it, and no others.\n\
Broken: the install at this place hands back another message, or lacks one.\n\
To do: look for sends and deliveries of this member that were cut from its text or edited.\n";

pub(crate) const STATE_OF_ENTRY: &str = "\
D12, state of entry: a member that enters a view has the state that the view's coordinator had when it entered.\n\
Broken: the state at this place is another one, or no state of a chat: check reads those of the chat, and with --long of the long chat.\n\
To do: give --long for the long chat, and for nothing else. Do not check states of maps and locks here.\n";

pub(crate) const UNORDERED: &str = "\
unordered TEXT EVENT: the texts of the processes have no common order.\n\
Cause: this event of this text waits for one that can only come after it, as a delivery before its own send.\n\
To do: give check --processes the whole text of each process, as vsync member printed it, and each text once.\n";
