//! Packets as bytes. What grows is grown once, before the first byte is put.

ghost use Rattle.std.specs.Prelude.{◌≡◌, ◌≤◌, ◌+◌, ◌*◌, ◌++◌, ◌<◌, ◌^◌, true, length, vec_len, vec_capacity, IfSome, OnOk, OnErr};
ghost use Rattle.std.specs.List.{flat_map, AllByRecursion};
ghost use Rattle.byteorder.specs.Endian.{big_bytes};
ghost use Rattle.wire_values.specs.Fields.{IsAddress, IsViewId, IsNumber, IsEntry, IsPlaced, address_bytes, view_id_bytes, number_bytes, payload_bytes, entry_bytes};
ghost use Rattle.wire_values.specs.Lists.{IsView, IsReport, IsInstall, addresses_bytes, view_bytes, held_bytes, filled_bytes, report_bytes, state_bytes, given_bytes, install_bytes, IsGiven, IsChunk, chunk_bytes};
ghost use Rattle.wire_values.specs.Chunks.{IsTotal};
ghost use Rattle.wire_values.specs.Names.{is_group_name};
ghost use Rattle.wire_values.specs.Texts.{group_bytes};
ghost use Rattle.address.specs.declared.limits.TheConstants.{MEMBERS, PAYLOAD, WHOLE_STATE};
ghost use Rattle.wire.specs.Packets.{IsBody, Spells, front_bytes, header_bytes, body_bytes, spelling, listed_bytes};

use address::limits::{MAGIC, VERSION};
use address::{Address, ViewId};
use big_endian::{put, put_address, put_u8, put_u16, put_u32, put_u64};
use byteorder::{BigEndian, ByteOrder};
use std::alloc::AllocError;
use wire_values::{
    Body, Chunk, Entry, GivenState, GroupName, Held, Install, Items, Number, Packet, Payload,
    Report, Roster, Total,
};

// How many bytes a spelling has: of a flag, of how many are listed, of the length of a payload and of a state, of the index of a chunk;
const FLAG: usize = 1;

const COUNT: usize = 1;

const PAYLOAD_LENGTH: usize = 2;

const STATE_LENGTH: usize = 4;

const INDEX: usize = 1;
// of an address, of a number, of a view id, of an entry without its payload's bytes;
const ADDRESS: usize = 6;

const NUMBER: usize = 8;

const VIEW_ID: usize = NUMBER + ADDRESS;

const ENTRY: usize = ADDRESS + NUMBER + PAYLOAD_LENGTH;
// and of what stands before a body, without the bytes of the group's name: two bytes of ours, the version, the kind, the length of the name, two addresses.
const HEADER: usize = 5 + 2 * ADDRESS;

fn put_view_id(id: ViewId, out: &mut Vec<u8>)
    requires { vec_len out.old + length (view_id_bytes id) ≤ vec_capacity out.old }
    ensures items { out.new.items ≡ out.old.items ++ view_id_bytes id }
    ensures room { vec_capacity out.old ≤ vec_capacity out.new }
    ensures fits { IsViewId id }
{
    put_u64(id.counter(), out);
    put_address(id.creator(), out);
}

fn put_payload(payload: &Payload<'_>, out: &mut Vec<u8>)
    requires { vec_len out.old + length (payload_bytes payload.now) ≤ vec_capacity out.old }
    ensures items { out.new.items ≡ out.old.items ++ payload_bytes payload.now }
    ensures room { vec_capacity out.old ≤ vec_capacity out.new }
    ensures fits { length payload.now ≤ PAYLOAD }
{
    let bytes = payload.as_slice();
    put_u16(bytes.len() as u16, out);
    put(bytes, out);
}

fn put_entry_text(entry: &Entry<'_>, out: &mut Vec<u8>)
    requires { vec_len out.old + length (entry_bytes entry.now) ≤ vec_capacity out.old }
    ensures items { out.new.items ≡ out.old.items ++ entry_bytes entry.now }
    ensures room { vec_capacity out.old ≤ vec_capacity out.new }
    ensures fits { IsEntry entry.now }
{
    put_address(entry.sender, out);
    put_u64(entry.number.get(), out);
    put_payload(&entry.payload, out);
}

/// Appends an entry's spelling to the vector: for a REPORT with its place in the order before it, for an
/// INSTALL without. On refusal the vector's items are as they were.
pub fn put_entry(
    place: Option<Number>,
    entry: &Entry<'_>,
    out: &mut Vec<u8>,
) -> Result<(), AllocError>
    ensures ok { OnOk result (out.new.items ≡ out.old.items ++ listed_bytes place entry.now) }
    ensures err { OnErr result (out.new.items ≡ out.old.items) }
    ensures entry { OnOk result (IsEntry entry.now) }
    ensures place { OnOk result (IfSome place IsNumber) }
{
    out.reserve(24 + entry.payload.as_slice().len())?;
    if let Some(place) = place {
        put_u64(place.get(), out);
    }
    put_entry_text(entry, out);
    Ok(())
}

fn put_members(addresses: &[Address], out: &mut Vec<u8>)
    requires few { length addresses.now ≤ MEMBERS }
    requires room { vec_len out.old + length (addresses_bytes addresses.now) ≤ vec_capacity out.old }
    ensures items { out.new.items ≡ out.old.items ++ addresses_bytes addresses.now }
    ensures room { vec_capacity out.old ≤ vec_capacity out.new }
    ensures fits { AllByRecursion IsAddress addresses.now }
{
    put_u8(addresses.len() as u8, out);
    for address in addresses {
        put_address(*address, out);
    }
}

fn put_view(view: &Roster, out: &mut Vec<u8>)
    requires { vec_len out.old + length (view_bytes view.now) ≤ vec_capacity out.old }
    ensures items { out.new.items ≡ out.old.items ++ view_bytes view.now }
    ensures room { vec_capacity out.old ≤ vec_capacity out.new }
    ensures fits { IsView view.now }
{
    put_view_id(view.id(), out);
    put_members(view.members().as_slice(), out);
}

// A report's body behind its flag.
fn put_filled(previous: ViewId, report: &Report<'_>, out: &mut Vec<u8>)
    requires { vec_len out.old + length (filled_bytes previous report.now) ≤ vec_capacity out.old }
    ensures items { out.new.items ≡ out.old.items ++ filled_bytes previous report.now }
    ensures room { vec_capacity out.old ≤ vec_capacity out.new }
    ensures previous { IsViewId previous }
    ensures held { AllByRecursion IsPlaced report.now.held }
{
    let held = report.held();
    let (stable, delivered) = (report.stable(), report.delivered());
    put_numbers(previous, stable.get(), delivered.get(), out);
    put_u8(held.len() as u8, out);
    put(held.text(), out);
}

fn put_report(report: &Report<'_>, out: &mut Vec<u8>)
    requires { vec_len out.old + length (report_bytes report.now) ≤ vec_capacity out.old }
    ensures items { out.new.items ≡ out.old.items ++ report_bytes report.now }
    ensures room { vec_capacity out.old ≤ vec_capacity out.new }
    ensures fits { IsReport report.now }
{
    match report.previous() {
        None => put_u8(0, out),
        Some(previous) => {
            put_u8(1, out);
            put_filled(previous, report, out);
        }
    }
}

fn put_state(state: &GivenState<'_>, out: &mut Vec<u8>)
    requires { vec_len out.old + length (state_bytes state.now) ≤ vec_capacity out.old }
    ensures items { out.new.items ≡ out.old.items ++ state_bytes state.now }
    ensures room { vec_capacity out.old ≤ vec_capacity out.new }
    ensures fits { IsGiven state.now }
{
    match state {
        GivenState::Nothing => put_u8(0, out),
        GivenState::Whole(state) => {
            let bytes = state.as_slice();
            put_u8(1, out);
            put_u32(bytes.len() as u32, out);
            put(bytes, out);
        }
        GivenState::Chunked(total) => {
            put_u8(2, out);
            put_u32(total.get(), out);
        }
    }
}

fn put_given(install: &Install<'_>, out: &mut Vec<u8>)
    requires { vec_len out.old + length (given_bytes install.now) ≤ vec_capacity out.old }
    ensures items { out.new.items ≡ out.old.items ++ given_bytes install.now }
    ensures room { vec_capacity out.old ≤ vec_capacity out.new }
    ensures entries { AllByRecursion IsEntry install.now.items }
    ensures state { IsGiven install.now.state }
{
    let items = install.items();
    put_u64(install.base().get(), out);
    put_u8(items.len() as u8, out);
    put(items.text(), out);
    put_state(install.state(), out);
}

fn put_install(install: &Install<'_>, out: &mut Vec<u8>)
    requires { vec_len out.old + length (install_bytes install.now) ≤ vec_capacity out.old }
    ensures items { out.new.items ≡ out.old.items ++ install_bytes install.now }
    ensures room { vec_capacity out.old ≤ vec_capacity out.new }
    ensures fits { IsInstall install.now }
{
    put_view(install.view(), out);
    put_members(install.together().as_slice(), out);
    put_given(install, out);
}

// A view's id and a number of it.
fn put_number(view: ViewId, number: u64, out: &mut Vec<u8>)
    requires { vec_len out.old + length (view_id_bytes view ++ number_bytes number) ≤ vec_capacity out.old }
    ensures items { out.new.items ≡ out.old.items ++ (view_id_bytes view ++ number_bytes number) }
    ensures room { vec_capacity out.old ≤ vec_capacity out.new }
    ensures fits { IsViewId view }
{
    put_view_id(view, out);
    put_u64(number, out);
}

// A view's id and two numbers of it.
fn put_numbers(view: ViewId, first: u64, second: u64, out: &mut Vec<u8>)
    requires { vec_len out.old + length (view_id_bytes view ++ number_bytes first ++ number_bytes second) ≤ vec_capacity out.old }
    ensures items { out.new.items ≡ out.old.items ++ (view_id_bytes view ++ number_bytes first ++ number_bytes second) }
    ensures room { vec_capacity out.old ≤ vec_capacity out.new }
    ensures fits { IsViewId view }
{
    put_number(view, first, out);
    put_u64(second, out);
}

fn put_body(body: &Body<'_>, out: &mut Vec<u8>)
    requires { vec_len out.old + length (body_bytes body.now) ≤ vec_capacity out.old }
    ensures items { out.new.items ≡ out.old.items ++ body_bytes body.now }
    ensures room { vec_capacity out.old ≤ vec_capacity out.new }
    ensures fits { IsBody body.now }
{
    match body {
        Body::Join => {}
        Body::Redirect(coordinator) => put_address(*coordinator, out),
        Body::Leave => {}
        Body::Forward {
            view,
            number,
            payload,
        } => {
            put_number(*view, number.get(), out);
            put_payload(payload, out);
        }
        Body::Order { view, place, entry } => {
            put_number(*view, place.get(), out);
            put_entry_text(entry, out);
        }
        Body::Nak { view, missing } => {
            put_numbers(*view, missing.first().get(), missing.last().get(), out);
        }
        Body::Ack { view, delivered } => put_number(*view, delivered.get(), out),
        Body::Status { view, progress } => {
            put_numbers(
                *view,
                progress.highest().get(),
                progress.stable().get(),
                out,
            );
        }
        Body::Flush(proposal) => put_view(proposal, out),
        Body::Behind { proposal, counter } => put_number(*proposal, counter.get(), out),
        Body::Report { proposal, report } => {
            put_view_id(*proposal, out);
            put_report(report, out);
        }
        Body::Install(install) => put_install(install, out),
        Body::Merge(view) => put_view(view, out),
        Body::State { proposal, chunk } => {
            put_view_id(*proposal, out);
            put_u32(chunk.total().get(), out);
            put_u8(chunk.index(), out);
            put(chunk.as_slice(), out);
        }
    }
}

fn put_front(kind: u8, out: &mut Vec<u8>)
    requires { vec_len out.old + length (front_bytes kind) ≤ vec_capacity out.old }
    ensures items { out.new.items ≡ out.old.items ++ front_bytes kind }
    ensures room { vec_capacity out.old ≤ vec_capacity out.new }
{
    let mut text = [0; 4];
    let (magic, rest) = text.split_at_mut(2);
    BigEndian::write_u16(magic, MAGIC);
    rest[0] = VERSION;
    rest[1] = kind;
    put(&text, out);
}

fn put_header(packet: &Packet<'_>, out: &mut Vec<u8>)
    requires { vec_len out.old + length (header_bytes packet.now) ≤ vec_capacity out.old }
    ensures items { out.new.items ≡ out.old.items ++ header_bytes packet.now }
    ensures room { vec_capacity out.old ≤ vec_capacity out.new }
    ensures group { is_group_name packet.now.group ≡ true }
    ensures source { IsAddress packet.now.source }
    ensures destination { IsAddress packet.now.destination }
{
    let group = packet.group.as_slice();
    put_front(packet.body.kind(), out);
    put_u8(group.len() as u8, out);
    put(group, out);
    put_address(packet.source, out);
    put_address(packet.destination, out);
}

fn state_len(state: &GivenState<'_>) -> usize
    ensures size { result ≡ length (state_bytes state.now) }
    ensures few { result ≤ 5 + WHOLE_STATE }
{
    match state {
        GivenState::Nothing => FLAG,
        GivenState::Whole(state) => FLAG + STATE_LENGTH + state.as_slice().len(),
        GivenState::Chunked(_) => FLAG + STATE_LENGTH,
    }
}

fn view_len(view: &Roster) -> usize
    ensures size { result ≡ length (view_bytes view.now) }
    ensures few { result ≤ 15 + 6 * MEMBERS }
{
    VIEW_ID + COUNT + ADDRESS * view.members().len()
}

fn install_len(install: &Install<'_>) -> usize
    ensures size { result ≡ length (install_bytes install.now) }
    ensures few { result < 2 ^ 19 }
{
    let view = view_len(install.view());
    let together = ADDRESS * install.together().len();
    NUMBER + 2 * COUNT + view + together + install.items().text().len() + state_len(install.state())
}

fn report_len(report: &Report<'_>) -> usize
    ensures size { result ≡ length (report_bytes report.now) }
    ensures few { result < 2 ^ 19 }
{
    match report.previous() {
        None => FLAG,
        Some(_) => FLAG + VIEW_ID + 2 * NUMBER + COUNT + report.held().text().len(),
    }
}

// How many bytes a body has.
fn body_len(body: &Body<'_>) -> usize
    ensures size { result ≡ length (body_bytes body.now) }
    ensures few { result < 2 ^ 20 }
{
    match body {
        Body::Join => 0,
        Body::Redirect(_) => ADDRESS,
        Body::Leave => 0,
        Body::Forward { payload, .. } => VIEW_ID
            + NUMBER
            + PAYLOAD_LENGTH
            + payload.as_slice().len(),
        Body::Order { entry, .. } => VIEW_ID + NUMBER + ENTRY + entry.payload.as_slice().len(),
        Body::Nak { .. } => VIEW_ID + 2 * NUMBER,
        Body::Ack { .. } => VIEW_ID + NUMBER,
        Body::Status { .. } => VIEW_ID + 2 * NUMBER,
        Body::Flush(proposal) => view_len(proposal),
        Body::Behind { .. } => VIEW_ID + NUMBER,
        Body::Report { report, .. } => VIEW_ID + report_len(report),
        Body::Install(install) => install_len(install),
        Body::Merge(view) => view_len(view),
        Body::State { chunk, .. } => VIEW_ID + STATE_LENGTH + INDEX + chunk.as_slice().len(),
    }
}

/// Appends the packet's one spelling to the vector. On refusal the vector's items are as they were.
pub fn encode(packet: &Packet<'_>, out: &mut Vec<u8>) -> Result<(), AllocError>
    ensures ok { OnOk result (out.new.items ≡ out.old.items ++ spelling packet.now) }
    ensures err { OnErr result (out.new.items ≡ out.old.items) }
    // What is appended is in the grammar.
    ensures packet { OnOk result (Spells packet.now (spelling packet.now)) }
{
    out.reserve(HEADER + packet.group.as_slice().len() + body_len(&packet.body))?;
    put_header(packet, out);
    put_body(&packet.body, out);
    Ok(())
}
