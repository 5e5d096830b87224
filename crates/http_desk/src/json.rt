//! Values as JSON.

ghost use Rattle.http_desk.specs.Replies.{quoted_token};
ghost use Rattle.vsync_text.specs.Written.{Appends};

use crate::changes::Change;
use address::{Address, ViewId};
use base64::engine::general_purpose::STANDARD;
use keyed_state::Token;
use lock_table::{Lock, LockTable};
use replicated_map::ReplicatedMap;
use std::alloc::Global;
use vsync_text::{Part, Text};

// Whether a byte stands for itself in a string of JSON.
fn is_plain(byte: u8) -> bool {
    (byte >= 32) & (byte != b'"') & (byte != b'\\')
}

// Appends a byte that does not.
fn put_escaped(out: &mut Text, byte: u8) {
    match byte {
        b'"' => out.put(b"\\\""),
        b'\\' => out.put(b"\\\\"),
        other => {
            out.put(b"\\u00");
            out.put_hex(&[other]);
        }
    }
}

// Appends text as it stands in a string of JSON: runs of plain bytes at once.
fn put_text(out: &mut Text, bytes: &[u8]) {
    let mut start = 0usize;
    for (i, byte) in bytes.iter().enumerate() {
        if !is_plain(*byte) {
            out.put(bytes.get(start..i).unwrap_or(&[]));
            put_escaped(out, *byte);
            start = i.saturating_add(1);
        }
    }
    out.put(bytes.get(start..).unwrap_or(&[]));
}

// Appends bytes in base64.
fn put_base64(out: &mut Text, alloc: Global, bytes: &[u8]) {
    match STANDARD.encode(alloc, bytes) {
        Ok(text) => out.put(text.as_bytes()),
        Err(_) => out.refuse(),
    }
}

/// Appends bytes as a value of JSON: UTF-8 as a string, other bytes as an object with their base64.
pub(crate) fn put_value(out: &mut Text, alloc: Global, bytes: &[u8]) {
    if str::from_utf8(bytes).is_ok() {
        out.push(b'"');
        put_text(out, bytes);
        out.push(b'"');
    } else {
        out.put(b"{\"base64\": \"");
        put_base64(out, alloc, bytes);
        out.put(b"\"}");
    }
}

/// Appends bytes as the name of a field: UTF-8 as it is, other bytes as `base64:` and their base64.
pub(crate) fn put_name(out: &mut Text, alloc: Global, bytes: &[u8]) {
    out.push(b'"');
    if str::from_utf8(bytes).is_ok() {
        put_text(out, bytes);
    } else {
        out.put(b"base64:");
        put_base64(out, alloc, bytes);
    }
    out.put(b"\":");
}

/// Appends fields, each behind a comma: a name, which stands as it is, and a number.
pub(crate) fn put_fields(out: &mut Text, fields: &[(&'static [u8], u64)]) {
    for (name, number) in fields {
        out.put_parts(&[
            Part::Text(b",\""),
            Part::Text(name),
            Part::Text(b"\":"),
            Part::Number(*number),
        ]);
    }
}

/// Appends an address in quotes, behind a text.
pub(crate) fn put_quoted(out: &mut Text, before: &[u8], address: &Address) {
    out.put_parts(&[
        Part::Text(before),
        Part::Text(b"\""),
        Part::Address(*address),
        Part::Text(b"\""),
    ]);
}

/// Appends addresses in quotes, in brackets.
pub(crate) fn put_all(out: &mut Text, addresses: &[Address]) {
    out.put(b"[");
    for (i, address) in addresses.iter().enumerate() {
        let before: &[u8] = if i > 0 { b"," } else { b"" };
        put_quoted(out, before, address);
    }
    out.put(b"]");
}

/// Appends the id of a view in quotes, behind a text; `null` if there is none.
pub(crate) fn put_view(out: &mut Text, before: &[u8], view: Option<ViewId>) {
    out.put(before);
    match view {
        Some(view) => out.put_parts(&[Part::Text(b"\""), Part::View(view), Part::Text(b"\"")]),
        None => out.put(b"null"),
    }
}

/// Appends all entries of a map as an object, the keys rising.
pub(crate) fn put_entries(out: &mut Text, alloc: Global, map: &ReplicatedMap) {
    out.put(b"{");
    for i in 0..map.len() {
        if let Some((key, held)) = map.entry(i) {
            out.put(if i > 0 { b"," } else { b"" });
            put_name(out, alloc, key);
            put_value(out, alloc, held.value.as_slice());
        }
    }
    out.put(b"}\n");
}

// Whether one of these changes is of a key.
fn have_key(changes: &[Change], key: &[u8]) -> bool {
    for change in changes {
        if change.key.as_slice() == key {
            return true;
        }
    }
    false
}

// A key, and what it has.
fn put_key(out: &mut Text, alloc: Global, map: &ReplicatedMap, key: &[u8]) {
    put_name(out, alloc, key);
    match map.get(key) {
        Some(held) => put_value(out, alloc, held.value.as_slice()),
        None => out.put(b"null"),
    }
}

/// Appends the keys of these changes of a map as an object, each once: with its value, or `null` if it has none.
pub(crate) fn put_changes(out: &mut Text, alloc: Global, map: &ReplicatedMap, changes: &[Change]) {
    out.put(b"{");
    let mut is_first = true;
    for (i, change) in changes.iter().enumerate() {
        let key = change.key.as_slice();
        let later = changes.get(i.saturating_add(1)..).unwrap_or(&[]);
        if !have_key(later, key) {
            out.put(if is_first { b"" } else { b"," });
            is_first = false;
            put_key(out, alloc, map, key);
        }
    }
    out.put(b"}\n");
}

/// Appends a token in quotes, such as `"3@1.1/2"`.
pub(crate) fn put_token(out: &mut Text, token: &Token)
    ensures { Appends (quoted_token token.now) out.old out.new }
{
    out.put_parts(&[
        Part::Text(b"\""),
        Part::View(token.view),
        Part::Text(b"/"),
        Part::Number(token.count),
        Part::Text(b"\""),
    ]);
}

/// Appends a lock as an object: who holds it, with which token, and who waits.
pub(crate) fn put_lock(out: &mut Text, lock: &Lock) {
    let token = lock.token();
    out.put_parts(&[
        Part::Text(b"{\"holder\":\""),
        Part::Address(lock.holder()),
        Part::Text(b"\",\"token\":\""),
        Part::View(token.view),
        Part::Text(b"/"),
        Part::Number(token.count),
        Part::Text(b"\",\"waiting\":"),
    ]);
    put_all(out, lock.waiters());
    out.put(b"}");
}

/// Appends all locks that are held as an object, the names rising.
pub(crate) fn put_locks(out: &mut Text, alloc: Global, table: &LockTable) {
    out.put(b"{");
    for i in 0..table.len() {
        if let Some((name, lock)) = table.entry(i) {
            out.put(if i > 0 { b"," } else { b"" });
            put_name(out, alloc, name);
            put_lock(out, lock);
        }
    }
    out.put(b"}\n");
}
