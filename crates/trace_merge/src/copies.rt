//! Copies of events.

ghost use Rattle.std.specs.Prelude.{◌≡◌, IfOk, map};
ghost use Rattle.trace_props.specs.Recorded.{IsShort};

use address::Bytes;
use std::alloc::{AllocError, Global};
use trace_props::{BoxedInstall, Delivery, Event, HandedBack, Install, Message, Numbered, Sending};
use view::View;

fn numbered(alloc: Global, message: &Numbered) -> Result<Numbered, AllocError>
    ensures { IfOk result (λ m. m ≡ message.now) }
{
    Ok(Numbered {
        number: message.number,
        payload: message.payload.copied(alloc)?,
    })
}

fn handed_back(alloc: Global, messages: &HandedBack) -> Result<HandedBack, AllocError>
    ensures { IfOk result (λ h. h ≡ messages.now) }
{
    let messages = messages.as_slice();
    let mut items = Vec::with_capacity(alloc, messages.len())?;
    for message in messages {
        items.push(numbered(alloc, message)?)?;
    }
    Ok(HandedBack::from_vec(items))
}

fn given(alloc: Global, state: &Option<Bytes>) -> Result<Option<Bytes>, AllocError>
    ensures { IfOk result (λ s. s ≡ state.now) }
{
    match state {
        None => Ok(None),
        Some(state) => Ok(Some(state.copied(alloc)?)),
    }
}

fn view(alloc: Global, view: &View) -> Result<View, AllocError>
    ensures { IfOk result (λ v. v ≡ view.now) }
{
    match View::new(view.id(), view.members().copied(alloc)?) {
        Ok(copy) => Ok(copy),
        Err(_) => Err(AllocError),
    }
}

fn install(alloc: Global, install: &Install) -> Result<Install, AllocError>
    ensures { IfOk result (λ i. i ≡ install.now) }
{
    Ok(Install {
        member: install.member,
        previous: install.previous,
        view: view(alloc, &install.view)?,
        together: install.together.copied(alloc)?,
        handed_back: handed_back(alloc, &install.handed_back)?,
        given: given(alloc, &install.given)?,
    })
}

/// A copy of an event.
pub(crate) fn copied(alloc: Global, event: &Event) -> Result<Event, AllocError>
    ensures { IfOk result (λ e. e ≡ event.now) }
{
    Ok(match event {
        Event::Started(member) => Event::Started(*member),
        Event::Sent(sending) => Event::Sent(Sending {
            member: sending.member,
            view: sending.view,
            message: numbered(alloc, &sending.message)?,
        }),
        Event::Delivered(delivery) => Event::Delivered(Delivery {
            member: delivery.member,
            view: delivery.view,
            message: Message {
                sender: delivery.message.sender,
                number: delivery.message.number,
                payload: delivery.message.payload.copied(alloc)?,
            },
        }),
        Event::Blocked(member) => Event::Blocked(*member),
        Event::Installed(boxed) => {
            let copy = install(alloc, boxed.get())?;
            Event::Installed(BoxedInstall::new(alloc, copy)?)
        }
        Event::Left(member) => Event::Left(*member),
        Event::Crashed(member) => Event::Crashed(*member),
    })
}
