//! The two services of a connection: one notes what is asked, the other gives the answer that was found.

ghost use Rattle.std.specs.Prelude.{◌≡◌, false, OnOk};
ghost use Rattle.http_server.specs.Response.{IsBlank};
ghost use Rattle.http_desk.specs.Gives.{body_of};

use crate::kept::Keeps;
use crate::reply::Reply;
use crate::request::{Asked, asked_by};
use bytes::{BufMut, Bytes};
use http::{HeaderName, HeaderValue, Request, StatusCode, header};
use http_server::{Response, Service};
use std::alloc::{AllocError, Global};

/// Notes the request that came. What it answers is never sent.
#[derive(Drop)]
pub(crate) struct Noting {
    pub(crate) alloc: Global,
    pub(crate) keeps: Keeps,
    pub(crate) asked: Option<Asked>,
}

impl Service for Noting {
    ghost answers = { λ old request response new. Unit {0} };

    fn call(
        &mut self,
        request: &Request<Bytes>,
        response: &mut Response,
    ) -> Result<(), AllocError> {
        let noted = asked_by(self.alloc, request, self.keeps)?;
        self.asked = Some(noted);
        response.status = StatusCode::SERVICE_UNAVAILABLE;
        Ok(())
    }
}

/// Gives the answer that was found to what was asked. A request that asks anything else is answered 503, and so is each where none was found.
#[derive(Drop)]
pub(crate) struct Giving {
    pub(crate) alloc: Global,
    pub(crate) keeps: Keeps,
    pub(crate) found: Option<Answered>,
}

/// What was asked, and the answer that was found.
#[derive(Drop)]
pub(crate) struct Answered {
    pub(crate) asked: Asked,
    pub(crate) reply: Reply,
}

fn add(
    alloc: Global,
    response: &mut Response,
    name: HeaderName,
    value: &[u8],
) -> Result<(), AllocError>
    ensures status { response.new.status ≡ response.old.status }
    ensures body { response.new.body ≡ response.old.body }
{
    match HeaderValue::from_bytes(alloc, value) {
        Ok(value) => response.add_header(name, value),
        Err(_) => Ok(()),
    }
}

// Adds the fields of an answer.
fn add_fields(alloc: Global, reply: &Reply, response: &mut Response) -> Result<(), AllocError>
    ensures status { response.new.status ≡ response.old.status }
    ensures body { response.new.body ≡ response.old.body }
{
    add(alloc, response, header::CONTENT_TYPE, reply.media.name())?;
    if let Some(tag) = &reply.tag {
        add(alloc, response, header::ETAG, tag.as_slice())?;
    }
    if let Some(place) = &reply.place {
        let name = HeaderName::from_static("x-place");
        add(alloc, response, name, place.as_slice())?;
    }
    if reply.status == StatusCode::SERVICE_UNAVAILABLE {
        return add(alloc, response, header::RETRY_AFTER, b"1");
    }
    Ok(())
}

// Fills a response that is blank.
fn fill(alloc: Global, reply: &Reply, response: &mut Response) -> Result<(), AllocError>
    requires { IsBlank response.old }
    ensures whole { OnOk result (reply.now.body.is_short ≡ false) }
    ensures status { OnOk result (response.new.status ≡ reply.now.status) }
    ensures body { OnOk result (response.new.body.items ≡ body_of reply.now) }
{
    if reply.is_short() {
        return Err(AllocError);
    }
    add_fields(alloc, reply, response)?;
    response.status = reply.status;
    response.body.put_slice(reply.body.as_slice())?;
    match &reply.shared {
        Some(shared) => response.body.push(shared.clone()?),
        None => Ok(()),
    }
}

impl Service for Giving {
    ghost use Rattle.http_desk.specs.Gives.{IsGiven};

    // A response is the answer that was found, or 503.
    ghost answers = { λ old request response new. IsGiven old.found response.status response.body.items };

    fn call(
        &mut self,
        request: &Request<Bytes>,
        response: &mut Response,
    ) -> Result<(), AllocError> {
        let asked = asked_by(self.alloc, request, self.keeps)?;
        match &self.found {
            Some(found) if found.asked == asked => fill(self.alloc, &found.reply, response),
            _ => {
                response.status = StatusCode::SERVICE_UNAVAILABLE;
                Ok(())
            }
        }
    }
}
