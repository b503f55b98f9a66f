ghost use Rattle.std.specs.Prelude.{◌≡◌, ◌<◌, ◌≤◌, [], ◌++◌, Some, None, IfOk, IfErr, OnOk};
ghost use Rattle.pv_fields.specs.Out.{Puts};
ghost use Rattle.pv_packet.specs.Packet.{head_bytes, head_error};
ghost use Rattle.pv_packet.specs.declared.head.TheConstants.{LAST_KIND, LAST_CARRYING};
ghost use Rattle.pv_account.specs.declared.account.TheConstants.{LAST_CENTRE};

use crate::error::PacketError;
use pv_account::LAST_CENTRE;
use pv_fields::{In, NoRoom, Out};

/// How many bytes a packet's head has: its kind, its centre, and its number in eight.
pub const HEAD_BYTES: usize = 10;

/// How many bytes a packet has at most: the longest record goes down in as many.
pub const PACKET_BYTES: usize = 1010;

/// The greatest kind. Kinds are counted from 1.
pub const LAST_KIND: u8 = 4;

/// The kinds of the packets that carry something. The others are acknowledgements.
pub(crate) const LAST_CARRYING: u8 = 2;

/// What every packet begins with.
#[derive(Clone, Copy, Debug, PartialEq, Eq)]
pub(crate) struct Head {
    /// The kind, 1 to [`LAST_KIND`].
    pub(crate) kind: u8,
    /// The centre, at most [`LAST_CENTRE`].
    pub(crate) centre: u8,
    /// The packet's number.
    pub(crate) number: u64,
}

/// Appends a head.
pub(crate) fn put_head(kind: u8, centre: u8, number: u64, out: &mut Out) -> Result<(), NoRoom>
    ensures { Puts result out.old out.new (head_bytes kind centre number) }
{
    out.u8(kind)?;
    out.u8(centre)?;
    out.u64(number)
}

/// Reads the head at the beginning of bytes, and returns the bytes after it too.
pub(crate) fn read_head(bytes: &[u8]) -> Result<(Head, &[u8]), PacketError>
    ensures found { IfOk result
        (λ read. bytes.now ≡ head_bytes read.0.kind read.0.centre read.0.number ++ read.1.now) }
    ensures range { IfOk result (λ read. (1 ≤ read.0.kind) × (read.0.kind ≤ LAST_KIND)) }
    ensures centre { IfOk result (λ read. read.0.centre ≤ LAST_CENTRE) }
    ensures ends { IfOk result (λ read. LAST_CARRYING < read.0.kind → read.1.now ≡ []) }

    // The error is the first that applies to the head.
    ensures ok { OnOk result (head_error bytes.now ≡ None) }
    ensures refused { IfErr result (λ error. head_error bytes.now ≡ Some error) }
{
    let mut from = In::new(bytes);
    let Ok(kind) = from.u8() else {
        return Err(PacketError::Short);
    };
    if kind < 1 || kind > LAST_KIND {
        return Err(PacketError::Kind);
    }
    let Ok(centre) = from.u8() else {
        return Err(PacketError::Short);
    };
    let Ok(number) = from.u64() else {
        return Err(PacketError::Short);
    };
    if centre > LAST_CENTRE {
        return Err(PacketError::Body);
    }
    if kind > LAST_CARRYING && from.left() > 0 {
        return Err(PacketError::Trailing);
    }
    let head = Head {
        kind,
        centre,
        number,
    };
    Ok((head, from.rest()))
}
