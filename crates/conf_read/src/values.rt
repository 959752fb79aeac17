// The typed values: a setting more. Inner.
ghost use Rattle.std.specs.Prelude.{◌≡◌};
ghost use Rattle.conf_read.specs.Config.{defaults, link_with, maxseq_with, values_with};

use conf_typed::{BadValue, Section, Typed};

// What `server` and `relay` each have.
#[derive(Clone, Copy)]
pub struct Link {
    pub timeout: u64,
    pub keepalive: bool,
}

#[derive(Clone, Copy)]
pub struct Values {
    pub server: Link,
    pub relay: Link,
    pub maxseq: u64,
}

// The paper's defaults.
pub fn default_values() -> Values
    ensures { result ≡ defaults }
{
    let link = Link {
        timeout: 30,
        keepalive: true,
    };
    Values {
        server: link,
        relay: link,
        maxseq: 2176782336,
    }
}

#[tactic(auto, unfolding(crate::specs::Config::link_with))]
fn link_with(l: Link, t: Result<Option<Typed>, BadValue>) -> Link
    ensures { result ≡ link_with l t }
{
    match t {
        Ok(Some(Typed::Timeout(timeout))) => Link { timeout, ..l },
        Ok(Some(Typed::Keepalive(keepalive))) => Link { keepalive, ..l },
        Ok(Some(Typed::Maxseq(_))) => l,
        Ok(None) => l,
        Err(_) => l,
    }
}

#[tactic(auto, unfolding(crate::specs::Config::maxseq_with))]
fn maxseq_with(m: u64, t: Result<Option<Typed>, BadValue>) -> u64
    ensures { result ≡ maxseq_with m t }
{
    match t {
        Ok(Some(Typed::Timeout(_))) => m,
        Ok(Some(Typed::Keepalive(_))) => m,
        Ok(Some(Typed::Maxseq(n))) => n,
        Ok(None) => m,
        Err(_) => m,
    }
}

// The values after a setting that is read so: one that is not typed, or whose value is bad, changes none.
#[tactic(auto, unfolding(crate::specs::Config::values_with))]
pub fn values_with(vs: Values, section: Section, t: Result<Option<Typed>, BadValue>) -> Values
    ensures { result ≡ values_with vs section t }
{
    match section {
        Section::Server => Values {
            server: link_with(vs.server, t),
            ..vs
        },
        Section::Relay => Values {
            relay: link_with(vs.relay, t),
            ..vs
        },
        Section::Iolog => Values {
            maxseq: maxseq_with(vs.maxseq, t),
            ..vs
        },
        Section::Eventlog | Section::Syslog | Section::Logfile | Section::Unknown => vs,
    }
}
