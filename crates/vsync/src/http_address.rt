//! Where a node answers requests.

use std::net::{IpAddr, Ipv4Addr, SocketAddr};

/// The address and port that a text says, such as `127.0.0.1:8001`. A port alone, such as `8001` or `:8001`, is one of 127.0.0.1. `None` if it says none.
pub(crate) fn http_address(text: &str) -> Option<SocketAddr> {
    let port = text.strip_prefix(":").unwrap_or(text);
    if let Ok(port) = port.parse::<u16>() {
        return Some(SocketAddr::new(IpAddr::V4(Ipv4Addr::LOCALHOST), port));
    }
    match text.parse::<SocketAddr>() {
        Ok(at) => Some(at),
        Err(_) => None,
    }
}
