//! Whether a device's blocks are valid.

ghost use Rattle.std.specs.Prelude.{◌≡◌, ◌↔◌, ◌<◌, ◌^◌, IsTrue, length};
ghost use Rattle.std.specs.List.{All, AllByRecursion};
ghost use Rattle.irt_base.specs.Valid.{IsWithin, IsIdentifier, AreBytes, IsPortDelay, IsGlobalBlock, IsDomainByte, IsSyncBlock, IsBundle};

use crate::frames::is_frame_block;
use crate::periods::is_period_block;
use irt_base::blocks::{Bundle, GlobalBlock, PortDelay, SyncBlock};
use irt_base::limits::{MAX_DELAY, MAX_DOMAIN_NAME, MAX_FACTOR, MAX_PORTS, MAX_WINDOW};

/// Whether each device's blocks are valid. It takes time linear in the sizes.
pub fn are_bundles(bundles: &[Bundle]) -> bool
    ensures { IsTrue result ↔ All IsBundle bundles.now }
{
    for bundle in bundles {
        if !is_bundle(bundle) {
            return false;
        }
    }
    true
}

/// Whether the blocks of a device are valid: each value is in its range. It takes time linear in the sizes.
pub fn is_bundle(b: &Bundle) -> bool
    ensures { IsTrue result ↔ IsBundle b.now }
{
    let _slot = b.slot;
    let _subslot = b.subslot;
    is_sync_block(&b.sync)
        && is_global_block(&b.global)
        && is_frame_block(&b.frames)
        && is_period_block(&b.periods)
}

fn is_sync_block(b: &SyncBlock) -> bool
    ensures { IsTrue result ↔ IsSyncBlock b.now }
{
    fits(b);
    b.window <= MAX_WINDOW && is_factor(b.factor) && is_name(b.name.as_slice())
}

/// The numbers that take all values of their types.
fn fits(b: &SyncBlock)
    ensures subdomain { IsIdentifier b.now.subdomain }
    ensures send { b.now.send < 2 ^ 32 }
    ensures timeout { b.now.timeout < 2 ^ 16 }
    ensures takeover { b.now.takeover < 2 ^ 16 }
    ensures startup { b.now.startup < 2 ^ 16 }
    ensures properties { b.now.properties < 2 ^ 16 }
    ensures priority1 { b.now.priority1 < 2 ^ 8 }
    ensures priority2 { b.now.priority2 < 2 ^ 8 }
{
    identifier(&b.subdomain);
    let _send = b.send;
    let _timeout = b.timeout;
    let _takeover = b.takeover;
    let _startup = b.startup;
    let _properties = b.properties;
    let _first = b.priority1;
    let _second = b.priority2;
}

/// Sixteen bytes are an identifier.
fn identifier(bytes: &[u8; 16])
    ensures { IsIdentifier bytes.now }
{
    let all: &[u8] = bytes;
    are_bytes(all);
}

/// Each byte is below 256.
fn are_bytes(bytes: &[u8])
    ensures { AreBytes bytes.now }
{
    let _length = bytes.len();
}

fn is_factor(factor: u16) -> bool
    ensures { IsTrue result ↔ IsWithin 1 MAX_FACTOR factor }
{
    1 <= factor && factor <= MAX_FACTOR
}

fn is_name(name: &[u8]) -> bool
    ensures { IsTrue result ↔ IsWithin 1 MAX_DOMAIN_NAME (length name.now) × AllByRecursion IsDomainByte name.now }
{
    1 <= name.len() && name.len() <= MAX_DOMAIN_NAME && are_letters(name)
}

fn are_letters(name: &[u8]) -> bool
    ensures { IsTrue result ↔ AllByRecursion IsDomainByte name.now }
{
    name.iter().all(|byte| is_letter(*byte))
}

fn is_letter(byte: u8) -> bool
    ensures { IsTrue result ↔ IsDomainByte byte }
{
    (97 <= byte && byte <= 122) || (48 <= byte && byte <= 57) || byte == 45 || byte == 46
}

fn is_global_block(b: &GlobalBlock) -> bool
    ensures { IsTrue result ↔ IsGlobalBlock b.now }
{
    identifier(&b.uuid);
    b.bridge <= MAX_DELAY && is_count(b.ports.len()) && are_delays(b.ports.as_slice())
}

pub fn is_count(ports: usize) -> bool
    ensures { IsTrue result ↔ IsWithin 1 MAX_PORTS ports }
{
    1 <= ports && ports <= MAX_PORTS
}

fn are_delays(ports: &[PortDelay]) -> bool
    ensures { IsTrue result ↔ AllByRecursion IsPortDelay ports.now }
{
    ports.iter().all(|port| is_delay(*port))
}

fn is_delay(port: PortDelay) -> bool
    ensures { IsTrue result ↔ IsPortDelay port }
{
    port.tx <= MAX_DELAY && port.rx <= MAX_DELAY
}
