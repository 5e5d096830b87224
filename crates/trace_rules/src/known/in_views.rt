ghost use Rattle.std.specs.Prelude.{◌≡◌, ◌++◌, ◌∷◌, [], List, if◌then◌else◌, OnOk, length, slice_get, None, Some};
ghost use Rattle.std.specs.Option.{option_copied};
ghost use Rattle.std.specs.HashMap.{get};
ghost use Rattle.address.specs.Ids.{Address, ViewId};
ghost use Rattle.trace_props.specs.declared.event.Event.{Event};
ghost use Rattle.trace_props.specs.Following.{MayCarry};
ghost use Rattle.trace_rules.specs.declared.known.keys.MemberInView.{MemberInView};
ghost use Rattle.trace_rules.specs.Known.{place_of, same_in_view, entry_kept, sent_kept, delivered_kept, last_kept, Says, Follows, KnowsInViews};

use super::keys::MemberInView;
use super::lasts::{Last, keep_last, last_of};
use address::Address;
use std::alloc::{AllocError, Global};
use std::collections::HashMap;
use trace_props::{Event, Install, Message, Numbered};

/// What a member did in a view: its install of it, what it sent and delivered, and the number of the last message of each sender that it delivered.
pub struct InView<'a> {
    pub entry: Option<&'a Install>,
    pub sent: Vec<&'a Numbered>,
    pub delivered: Vec<&'a Message>,
    pub lasts: Vec<Last>,
}

impl Drop for InView<'_> {
    fn drop(self) {
        let InView {
            entry: _,
            sent: _,
            delivered: _,
            lasts: _,
        } = self;
    }
}

impl<'a> InView<'a> {
    /// Nothing. Takes no memory.
    fn new(alloc: Global) -> InView<'a>
        ensures { (p : Address) (v : ViewId) (t : List Event) → Says None p v t → Says (Some result) p v t }
    {
        InView {
            entry: None,
            sent: Vec::new(alloc),
            delivered: Vec::new(alloc),
            lasts: Vec::new(alloc),
        }
    }

    /// Adds what the member did next in the view.
    fn add(&mut self, event: &'a Event) -> Result<(), AllocError>
        ensures { OnOk result ((t : List Event) → MayCarry t event.now → Follows (Some self.old) (Some self.new) t event.now) }
    {
        match event {
            Event::Sent(sending) => {
                self.sent.push(&sending.message)?;
                Ok(())
            }
            Event::Delivered(delivery) => {
                let message = &delivery.message;
                keep_last(&mut self.lasts, message.sender, message.number)?;
                self.delivered.push(message)?;
                Ok(())
            }
            Event::Installed(install) => {
                self.entry = self.entry.or(Some(install.get()));
                Ok(())
            }
            _ => Ok(()),
        }
    }
}

/// How many messages a member sent in a view.
pub fn sent_count(in_view: Option<&InView>) -> usize
    ensures { result ≡ length (sent_kept (option_copied in_view.entry)) }
{
    match in_view {
        None => 0,
        Some(kept) => kept.sent.len(),
    }
}

/// A message that a member sent in a view, by its index from 0.
pub fn sent_at<'a>(in_view: Option<&InView<'a>>, index: usize) -> Option<&'a Numbered>
    ensures { option_copied result ≡ slice_get (sent_kept (option_copied in_view.entry)) index }
{
    match in_view {
        None => None,
        Some(kept) => kept.sent.get(index).copied(),
    }
}

/// How many messages a member delivered in a view.
pub fn delivered_count(in_view: Option<&InView>) -> usize
    ensures { result ≡ length (delivered_kept (option_copied in_view.entry)) }
{
    match in_view {
        None => 0,
        Some(kept) => kept.delivered.len(),
    }
}

/// A message that a member delivered in a view, by its index from 0.
pub fn delivered_at<'a>(in_view: Option<&InView<'a>>, index: usize) -> Option<&'a Message>
    ensures { option_copied result ≡ slice_get (delivered_kept (option_copied in_view.entry)) index }
{
    match in_view {
        None => None,
        Some(kept) => kept.delivered.get(index).copied(),
    }
}

/// The number of the last message of a sender that a member delivered in a view, 0 before the first.
pub fn last(in_view: Option<&InView>, sender: Address) -> u64
    ensures { result ≡ last_kept (option_copied in_view.entry) sender }
{
    match in_view {
        None => 0,
        Some(kept) => last_of(kept.lasts.as_slice(), sender),
    }
}

/// A member's install of a view.
pub fn entry<'a>(in_view: Option<&InView<'a>>) -> Option<&'a Install>
    ensures { option_copied result ≡ entry_kept (option_copied in_view.entry) }
{
    match in_view {
        None => None,
        Some(kept) => kept.entry,
    }
}

// The member that does something in a view, and the view.
fn place_of(event: &Event) -> Option<MemberInView>
    ensures { result ≡ place_of event.now }
{
    match event {
        Event::Sent(sending) => Some(MemberInView {
            member: sending.member,
            view: sending.view,
        }),
        Event::Delivered(delivery) => Some(MemberInView {
            member: delivery.member,
            view: delivery.view,
        }),
        Event::Installed(install) => {
            let install = install.get();
            Some(MemberInView {
                member: install.member,
                view: install.view.id(),
            })
        }
        _ => None,
    }
}

// Keeps what a member did first in a view.
fn begin<'a>(
    in_views: &mut HashMap<MemberInView, InView<'a>>,
    in_view: MemberInView,
    first: InView<'a>,
) -> Result<(), AllocError>
    ensures { OnOk result ((other : MemberInView) → get same_in_view in_views.new other ≡ (if same_in_view in_view other then Some first.entry else get same_in_view in_views.old other)) }
{
    in_views.insert(in_view, first)?;
    Ok(())
}

/// Keeps what a member does next in a view; a message that it delivers is its sender's next.
pub fn note_in_view<'a>(
    alloc: Global,
    in_views: &mut HashMap<MemberInView, InView<'a>>,
    event: &'a Event,
) -> Result<(), AllocError>
    ensures { OnOk result ((t : List Event) → MayCarry t event.now → KnowsInViews (get same_in_view in_views.old) t → KnowsInViews (get same_in_view in_views.new) (t ++ event.now ∷ [])) }
{
    let Some(in_view) = place_of(event) else {
        return Ok(());
    };
    match in_views.get_mut(&in_view) {
        Some(kept) => kept.add(event),
        None => {
            let mut first = InView::new(alloc);
            first.add(event)?;
            begin(in_views, in_view, first)
        }
    }
}
