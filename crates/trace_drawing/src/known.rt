//! What is kept of the events so far, so that a row is laid out by a few look-ups.

ghost use Rattle.std.specs.Prelude.{◌≡◌, ℕ, ◌++◌, ◌∷◌, [], List, Some, OnOk, IfOk, IfSome, IfNone, is_some, length, if◌then◌else◌};
ghost use Rattle.std.specs.Option.{option_copied};
ghost use Rattle.std.specs.HashMap.{get};
ghost use Rattle.address.specs.Ids.{Address, same_address, same_view_id};
ghost use Rattle.trace_props.specs.declared.event.Event.{Event};
ghost use Rattle.trace_props.specs.Observed.{member_of, is_end};
ghost use Rattle.trace_drawing.specs.Layout.{same_message, reached_by, row_of, member_line};
ghost use Rattle.trace_drawing.specs.Known.{blocked_after, lifeline_after, row_after, KnowsSends, KnowsInstalls, Knows};

use crate::row::{Line, MessageKey, Row};
use address::{Address, ViewId};
use std::alloc::{AllocError, Global};
use std::collections::HashMap;
use std::hash::Hash;
use trace_props::Event;

/// What is kept of a member: its column, the levels of its first and its last event, whether it is blocked, and whether it has ended.
#[derive(Clone, Copy)]
pub struct Lifeline {
    pub column: u32,
    pub first: u32,
    pub last: u32,
    pub blocked: bool,
    pub ended: bool,
}

/// The members in the order in which they come up, what is kept of each, and at which event each message was sent last and each view installed last.
pub struct Known {
    pub members: Vec<Address>,
    pub lifelines: HashMap<Address, Lifeline>,
    pub sends: HashMap<MessageKey, u32>,
    pub installs: HashMap<ViewId, u32>,
}

impl Drop for Known {
    fn drop(self) {
        let Known {
            members: _,
            lifelines: _,
            sends: _,
            installs: _,
        } = self;
    }
}

/// To whom an event happens.
pub fn member(event: &Event) -> Address
    ensures { result ≡ member_of event.now }
{
    match event {
        Event::Started(member) => *member,
        Event::Sent(sending) => sending.member,
        Event::Delivered(delivery) => delivery.member,
        Event::Blocked(member) => *member,
        Event::Installed(install) => install.get().member,
        Event::Left(member) => *member,
        Event::Crashed(member) => *member,
    }
}

// Whether a member is blocked after an event of its own.
fn blocked_after(blocked: bool, event: &Event) -> bool
    ensures { result ≡ blocked_after blocked event.now }
{
    match event {
        Event::Blocked(_) => true,
        Event::Installed(_) => false,
        _ => blocked,
    }
}

// Whether an event ends its member.
fn is_end(event: &Event) -> bool
    ensures { result ≡ is_end event.now }
{
    matches!(event, Event::Left(_) | Event::Crashed(_))
}

// From where an event is reached.
fn origin(
    sends: &HashMap<MessageKey, u32>,
    installs: &HashMap<ViewId, u32>,
    event: &Event,
) -> Option<u32>
    ensures { result ≡ reached_by (get same_message sends.now) (get same_view_id installs.now) event.now }
{
    match event {
        Event::Delivered(delivery) => sends
            .get(&MessageKey {
                view: delivery.view,
                sender: delivery.message.sender,
                number: delivery.message.number,
            })
            .copied(),
        Event::Installed(install) => installs.get(&install.get().view.id()).copied(),
        _ => None,
    }
}

// What is kept of a member after an event of its own, at a level.
fn lifeline_after(kept: Option<&Lifeline>, column: u32, level: u32, event: &Event) -> Lifeline
    ensures { result ≡ lifeline_after (option_copied kept.entry) column level event.now }
{
    match kept {
        None => Lifeline {
            column,
            first: level,
            last: level,
            blocked: blocked_after(false, event),
            ended: is_end(event),
        },
        Some(kept) => Lifeline {
            column,
            first: kept.first,
            last: level,
            blocked: blocked_after(kept.blocked, event),
            ended: if is_end(event) { true } else { kept.ended },
        },
    }
}

// How the row of a member's next event is laid out at a level, by what is kept of the member.
fn row_after(kept: &Lifeline, level: u32, origin: Option<u32>) -> Row
    ensures { (next : ℕ) → result ≡ row_after (Some kept.now) next level origin }
{
    Row {
        column: kept.column,
        level,
        before: Some(kept.last),
        blocked: kept.blocked,
        origin,
    }
}

// Keeps the next event of a member, at a level, and answers how its row is laid out. Refused where there are 2^32 members already.
fn note_member(
    members: &mut Vec<Address>,
    lifelines: &mut HashMap<Address, Lifeline>,
    event: &Event,
    level: u32,
    origin: Option<u32>,
) -> Result<Row, AllocError>
    ensures row { IfOk result (λ row. row ≡ row_after (get same_address lifelines.old (member_of event.now)) (length members.old.items) level origin) }
    ensures members { OnOk result (members.new.items ≡ (if is_some (get same_address lifelines.old (member_of event.now)) then members.old.items else members.old.items ++ member_of event.now ∷ [])) }
    ensures lifelines { IfOk result (λ row. (other : Address) → get same_address lifelines.new other ≡ (if same_address (member_of event.now) other then Some (lifeline_after (get same_address lifelines.old (member_of event.now)) row.column level event.now) else get same_address lifelines.old other)) }
{
    let member = member(event);
    if let Some(kept) = lifelines.get_mut(&member) {
        let before = *kept;
        *kept = lifeline_after(Some(&before), before.column, level, event);
        return Ok(row_after(&before, level, origin));
    }
    let Ok(column) = u32::try_from(members.len()) else {
        return Err(AllocError);
    };
    members.push(member)?;
    lifelines.insert(member, lifeline_after(None, column, level, event))?;
    Ok(Row {
        column,
        level,
        before: None,
        blocked: false,
        origin,
    })
}

/// Keeps the number of an event under a key.
pub fn put_row<K: Eq + Hash + Copy + Drop>(
    table: &mut HashMap<K, u32>,
    key: K,
    row: u32,
) -> Result<(), AllocError>
    ensures { OnOk result ((other : K) → get K.eq table.new other ≡ (if K.eq key other then Some row else get K.eq table.old other)) }
{
    table.insert(key, row)?;
    Ok(())
}

// Keeps the row of the message that an event sends, or of the view that it installs.
fn note_origin(
    sends: &mut HashMap<MessageKey, u32>,
    installs: &mut HashMap<ViewId, u32>,
    event: &Event,
    number: u32,
) -> Result<(), AllocError>
    ensures { OnOk result ((t : List Event) → number ≡ length t → KnowsSends (get same_message sends.old) t → KnowsInstalls (get same_view_id installs.old) t
        → KnowsSends (get same_message sends.new) (t ++ event.now ∷ []) × KnowsInstalls (get same_view_id installs.new) (t ++ event.now ∷ [])) }
{
    match event {
        Event::Sent(sending) => put_row(
            sends,
            MessageKey {
                view: sending.view,
                sender: sending.member,
                number: sending.message.number,
            },
            number,
        ),
        Event::Installed(install) => put_row(installs, install.get().view.id(), number),
        _ => Ok(()),
    }
}

impl Known {
    /// Nothing happened. Takes no memory.
    pub fn new(alloc: Global) -> Known
        ensures { (at : ℕ → ℕ) → Knows at result.members.items (get same_address result.lifelines) (get same_message result.sends) (get same_view_id result.installs) [] }
    {
        Known {
            members: Vec::new(alloc),
            lifelines: HashMap::new(alloc),
            sends: HashMap::new(alloc),
            installs: HashMap::new(alloc),
        }
    }

    /// Keeps the next event, with its number, at a level, and answers how its row is laid out. Refused where there are 2^32 members already.
    pub fn note(&mut self, event: &Event, number: u32, level: u32) -> Result<Row, AllocError>
        ensures row { IfOk result (λ row. (at : ℕ → ℕ) (t : List Event) → level ≡ at (length t)
            → Knows at self.old.members.items (get same_address self.old.lifelines) (get same_message self.old.sends) (get same_view_id self.old.installs) t → row ≡ row_of at t event.now) }
        ensures known { OnOk result ((at : ℕ → ℕ) (t : List Event) → number ≡ length t → level ≡ at (length t)
            → Knows at self.old.members.items (get same_address self.old.lifelines) (get same_message self.old.sends) (get same_view_id self.old.installs) t
            → Knows at self.new.members.items (get same_address self.new.lifelines) (get same_message self.new.sends) (get same_view_id self.new.installs) (t ++ event.now ∷ [])) }
    {
        let origin = origin(&self.sends, &self.installs, event);
        let row = note_member(&mut self.members, &mut self.lifelines, event, level, origin)?;
        note_origin(&mut self.sends, &mut self.installs, event, number)?;
        Ok(row)
    }

    /// The line of a member.
    pub fn line(&self, member: &Address) -> Option<Line>
        ensures { (at : ℕ → ℕ) (t : List Event) → Knows at self.now.members.items (get same_address self.now.lifelines) (get same_message self.now.sends) (get same_view_id self.now.installs) t → result ≡ member_line at t member.now }
    {
        match self.lifelines.get(member) {
            None => None,
            Some(lifeline) => Some(Line {
                member: *member,
                column: lifeline.column,
                first: lifeline.first,
                last: lifeline.last,
                ended: lifeline.ended,
                blocked: lifeline.blocked,
            }),
        }
    }
}
