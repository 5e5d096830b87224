//! What happened at the node last.

use crate::EVENTS;
use address::{Address, Bytes};
use keyed_state::token_in;
use std::alloc::{AllocError, Global};
use tickets::Place;
use trace_drawing::draw;
use trace_props::{
    BoxedInstall, Delivery, Event, HandedBack, Install, Message, Numbered, Sending, Verdict,
};
use view::View;
use vsync_text::Text;

/// The place that a text names, with or without quotes: it is written as a token is.
pub(crate) fn place_in(text: &[u8]) -> Option<Place> {
    let bare = match text {
        [b'"', bare @ .., b'"'] => bare,
        other => other,
    };
    let token = token_in(bare)?;
    Some(Place {
        view: token.view,
        count: token.count,
    })
}

/// To whom an event happens.
pub(crate) fn member_of(event: &Event) -> Address {
    match event {
        Event::Started(member) | Event::Blocked(member) => *member,
        Event::Left(member) | Event::Crashed(member) => *member,
        Event::Sent(sending) => sending.member,
        Event::Delivered(delivery) => delivery.member,
        Event::Installed(install) => install.get().member,
    }
}

fn numbered(alloc: Global, message: &Numbered) -> Result<Numbered, AllocError> {
    Ok(Numbered {
        number: message.number,
        payload: message.payload.copied(alloc)?,
    })
}

// A copy of an install, without the state that it gives.
fn install_of(alloc: Global, install: &Install) -> Result<Option<Event>, AllocError> {
    let mut back = Vec::new(alloc);
    for message in install.handed_back.as_slice() {
        back.push(numbered(alloc, message)?)?;
    }
    let members = install.view.members().copied(alloc)?;
    let Ok(view) = View::new(install.view.id(), members) else {
        return Ok(None);
    };
    let copy = Install {
        member: install.member,
        previous: install.previous,
        view,
        together: install.together.copied(alloc)?,
        handed_back: HandedBack::from_vec(back),
        given: None,
    };
    Ok(Some(Event::Installed(BoxedInstall::new(alloc, copy)?)))
}

// A copy of an event, without the state that it gives.
fn copy_of(alloc: Global, event: &Event) -> Result<Option<Event>, AllocError> {
    let copy = match event {
        Event::Started(member) => Event::Started(*member),
        Event::Blocked(member) => Event::Blocked(*member),
        Event::Left(member) => Event::Left(*member),
        Event::Crashed(member) => Event::Crashed(*member),
        Event::Sent(sending) => Event::Sent(Sending {
            member: sending.member,
            view: sending.view,
            message: numbered(alloc, &sending.message)?,
        }),
        Event::Delivered(delivery) => {
            let message = &delivery.message;
            let message = Message {
                sender: message.sender,
                number: message.number,
                payload: message.payload.copied(alloc)?,
            };
            Event::Delivered(Delivery {
                member: delivery.member,
                view: delivery.view,
                message,
            })
        }
        Event::Installed(install) => return install_of(alloc, install.get()),
    };
    Ok(Some(copy))
}

/// The last events.
#[derive(Drop)]
pub(crate) struct History {
    alloc: Global,
    // The oldest first.
    events: Vec<Event>,
}

impl History {
    pub(crate) fn new(alloc: Global) -> History {
        History {
            alloc,
            events: Vec::new(alloc),
        }
    }

    /// One more.
    pub(crate) fn hear(&mut self, event: &Event) -> Result<(), AllocError> {
        if let Some(copy) = copy_of(self.alloc, event)? {
            if self.events.len() >= EVENTS {
                let _oldest = self.events.remove(0);
            }
            self.events.push(copy)?;
        }
        Ok(())
    }

    /// Their picture.
    pub(crate) fn picture(&self) -> Text {
        match draw(self.alloc, self.events.as_slice(), &[], &[], Verdict::Holds) {
            Ok(picture) => Text::from_vec(picture),
            Err(_) => {
                let mut short = Text::new(self.alloc);
                short.refuse();
                short
            }
        }
    }

    /// A line for each, as in a trace.
    pub(crate) fn text(&self) -> Text {
        let mut out = Text::new(self.alloc);
        for event in self.events.iter() {
            out.append_event(event);
        }
        out
    }
}
