//! Which texts are settings.

use crate::files::{first_block, first_line};
use crate::lines::Told;
use address::Node;
use std::alloc::{AllocError, Global};
use udp_net::{Settings, settings};
use vsync_text::Part;

/// The most documents of a file.
const DOCUMENTS: u8 = 100;

/// The number of the refusal of a text; 0 where it is one of settings.
fn refusal(alloc: Global, text: &[u8]) -> u8 {
    match str::from_utf8(text) {
        Ok(text) => match settings(alloc, text) {
            Ok(_) => 0,
            Err(error) => error.number(),
        },
        Err(_) => 50,
    }
}

/// The text of settings of so many nodes, at the ports behind this one.
pub fn text_of_nodes(alloc: Global, count: u16, port: u16) -> Result<Vec<u8>, AllocError> {
    let mut text = Told::new(alloc);
    text.bytes(b"group = \"chat\"\nsilent = 50\n");
    for before in 0..count {
        let number = before + 1;
        text.parts(&[
            Part::Text(b"[[node]]\nnumber = "),
            Part::Number(u64::from(number)),
            Part::Text(b"\nport = "),
            Part::Number(u64::from(port.wrapping_add(number))),
            Part::Text(b"\n"),
        ]);
    }
    text.into_text()
}

/// How settings of so many nodes are refused.
fn put_many(alloc: Global, told: &mut Told, asked: &str, count: u16) {
    match text_of_nodes(alloc, count, 0) {
        Ok(text) => told.refusal(asked, refusal(alloc, text.as_slice())),
        Err(_) => told.refuse(),
    }
}

/// What settings say.
fn put_found(told: &mut Told, found: &Settings) {
    told.bytes(found.group().as_slice());
    told.number(", with rounds of silence", u64::from(found.silent()));
    for listed in found.nodes() {
        told.number("port of a node", u64::from(listed.port));
    }
    for number in 1..=3u16 {
        if let Some(node) = Node::new(number) {
            let port = found.port(node).unwrap_or(0);
            told.number("port by the node's number, 0 for none", u64::from(port));
        }
    }
}

/// What the settings of nodes 2 and 1 say.
pub fn found(alloc: Global, told: &mut Told) {
    let text =
        "group = \"chat\"\nsilent = 50\n[[node]]\nnumber = 2\nport = 27002\n[[node]]\nnumber = 1\nport = 27001\n";
    match settings(alloc, text) {
        Ok(found) => put_found(told, &found),
        Err(error) => told.refusal("settings", error.number()),
    }
}

/// How each document of a file is refused, and those of 16 and of 17 nodes.
pub fn all(alloc: Global, told: &mut Told, file: &[u8]) {
    let mut rest = file;
    for _ in 0..DOCUMENTS {
        let Some((document, behind)) = first_block(rest) else {
            break;
        };
        told.bytes(first_line(document));
        told.refusal("", refusal(alloc, document));
        rest = behind;
    }
    put_many(alloc, told, "16 nodes", 16);
    put_many(alloc, told, "17 nodes", 17);
}
