//! Settings from text.

ghost use Rattle.std.specs.Prelude.{◌≡◌, true, nat_eq, codes, Some, None, if◌then◌else◌};
ghost use Rattle.std.specs.Option.{option_and_then};
ghost use Rattle.toml.specs.Data.{get_member};
ghost use Rattle.toml.specs.Parse.{parse_document};
ghost use Rattle.toml.specs.View.{table_view, view, items_view};
ghost use Rattle.udp_net.specs.Settings.{Reads, key_count, number_of, number_at, group_of, node_of, may_be_nodes, nodes_of, nodes_behind, is_new, settings_in};

use crate::node_ports::{MOST_NODES, MOST_SILENT};
use crate::{NodePort, Settings, SettingsError};
use address::Node;
use std::alloc::Global;
use step_output::OwnedName;
use toml::{Table, Value};
use wire_values::GroupName;

/// The settings of a text: a document of TOML with a `group`, a number `silent` from 1 to 10,000, and 1 to 16 tables `[[node]]`, each with a `number` and a `port`
/// from 1 to 65535, of which no two are the same. Refused with 50 where it is none, also for any other key, and with 7 where memory was refused.
pub fn settings(alloc: Global, text: &str) -> Result<Settings, SettingsError>
    ensures { Reads (λ s. s) result (option_and_then settings_in (parse_document text.now)) }
{
    let table = table_of(alloc, text)?;
    only_keys(&table, 3)?;
    let group = group_in(&table)?;
    let silent = number_in(&table, "silent", MOST_SILENT)?;
    let nodes = nodes_of(alloc, value_at(&table, "node")?)?;
    Ok(Settings {
        group,
        silent,
        nodes,
    })
}

// The table of a document.
fn table_of(alloc: Global, text: &str) -> Result<Table, SettingsError>
    ensures { Reads table_view result (parse_document text.now) }
{
    match toml::table_from_str(alloc, text) {
        Ok(table) => Ok(table),
        Err(error) if error.is_memory() => Err(SettingsError::Memory),
        Err(_) => Err(SettingsError::Config),
    }
}

// That a table has so many keys, and so none but those that are looked up in it.
fn only_keys(table: &Table, count: usize) -> Result<(), SettingsError>
    ensures { Reads (λ u. u) result (if nat_eq (key_count (table_view table.now)) count then Some tt else None) }
{
    if table.len() != count {
        return Err(SettingsError::Config);
    }
    Ok(())
}

// What a table has under a key.
fn value_at<'a>(table: &'a Table, key: &str) -> Result<&'a Value, SettingsError>
    ensures { Reads (λ v. view v.now) result (get_member key.now (table_view table.now)) }
{
    table.get(key).ok_or(SettingsError::Config)
}

// The number from 1 to a highest one that a value is.
fn number_of(value: &Value, highest: u16) -> Option<u16>
    ensures { result ≡ number_of highest (view value.now) }
{
    let Value::Integer(number) = value else {
        return None;
    };
    let number = u16::try_from(*number).ok()?;
    if number == 0 || highest < number {
        return None;
    }
    Some(number)
}

// The number from 1 to a highest one that a table has under a key.
fn number_in(table: &Table, key: &str, highest: u16) -> Result<u16, SettingsError>
    ensures { Reads (λ n. n) result (number_at key.now highest (table_view table.now)) }
{
    number_of(value_at(table, key)?, highest).ok_or(SettingsError::Config)
}

// The name of the group.
fn group_in(table: &Table) -> Result<OwnedName, SettingsError>
    ensures { Reads (λ g. g) result (option_and_then group_of (get_member (codes "group") (table_view table.now))) }
{
    let Some(text) = value_at(table, "group")?.as_str() else {
        return Err(SettingsError::Config);
    };
    match GroupName::new(text.as_bytes()) {
        Some(name) => Ok(OwnedName::of(&name)),
        None => Err(SettingsError::Config),
    }
}

// Whether there are as many values as there may be nodes.
fn may_be_nodes(values: &[Value]) -> bool
    ensures { result ≡ may_be_nodes (items_view values.now) }
{
    1 <= values.len() && values.len() <= MOST_NODES
}

// The nodes of a value, and their ports.
fn nodes_of(alloc: Global, value: &Value) -> Result<Vec<NodePort>, SettingsError>
    ensures { Reads (λ l. l.items) result (nodes_of (view value.now)) }
{
    let Value::Array(values) = value else {
        return Err(SettingsError::Config);
    };
    if !may_be_nodes(values.as_slice()) {
        return Err(SettingsError::Config);
    }
    let mut nodes = Vec::with_capacity(alloc, values.len())?;
    add_nodes(values.as_slice(), &mut nodes)?;
    Ok(nodes)
}

// Adds the nodes of some values in turn, unless the number or the port of one is there.
fn add_nodes(values: &[Value], nodes: &mut Vec<NodePort>) -> Result<(), SettingsError>
    ensures { Reads (λ u. nodes.new.items) result (nodes_behind nodes.old.items (items_view values.now)) }
{
    let Some((first, rest)) = values.split_first() else {
        return Ok(());
    };
    let added = node_of(first)?;
    if !is_new(&added, nodes.as_slice()) {
        return Err(SettingsError::Config);
    }
    if nodes.push(added).is_err() {
        return Err(SettingsError::Memory);
    }
    add_nodes(rest, nodes)
}

// Whether no listed node has the number or the port of this one.
fn is_new(added: &NodePort, nodes: &[NodePort]) -> bool
    ensures { result ≡ is_new added.now nodes.now }
{
    let Some((first, rest)) = nodes.split_first() else {
        return true;
    };
    first.node != added.node && first.port != added.port && is_new(added, rest)
}

// The node of a value, and its port.
fn node_of(value: &Value) -> Result<NodePort, SettingsError>
    ensures { Reads (λ n. n) result (node_of (view value.now)) }
{
    let Some(table) = value.as_table() else {
        return Err(SettingsError::Config);
    };
    only_keys(table, 2)?;
    let number = number_in(table, "number", u16::MAX)?;
    let port = number_in(table, "port", u16::MAX)?;
    match Node::new(number) {
        Some(node) => Ok(NodePort { node, port }),
        None => Err(SettingsError::Config),
    }
}
