//! The names under which a browser of this machine reaches the web's port of a centre.

use std::alloc::{AllocError, Global};

/// The port that a browser leaves out of a host.
const USUAL_PORT: u16 = 80;

/// What our own pages have as `Host` and as `Origin`.
#[derive(Drop)]
pub struct Names {
    pub(crate) hosts: Vec<String>,
    pub(crate) origins: Vec<String>,
}

impl Names {
    /// The names at this port of the loopback.
    pub fn at(alloc: Global, port: u16) -> Result<Names, AllocError> {
        let mut hosts = Vec::new(alloc);
        let mut origins = Vec::new(alloc);
        for name in ["127.0.0.1", "localhost"] {
            hosts.push(format!(in alloc; "{name}:{port}")?)?;
            origins.push(format!(in alloc; "http://{name}:{port}")?)?;
            if port == USUAL_PORT {
                hosts.push(format!(in alloc; "{name}")?)?;
                origins.push(format!(in alloc; "http://{name}")?)?;
            }
        }
        Ok(Names { hosts, origins })
    }
}
