ghost use Rattle.std.specs.Prelude.{flat_map};
ghost use Rattle.pv_gen.specs.Writing.{AppendsOrFails};

use pv_outside::{Failed, Sink};

/// Writes bytes.
pub(crate) fn put<K: Sink>(out: &mut K, bytes: &[u8]) -> Result<(), Failed>
    ensures { AppendsOrFails (K.written out.old) (K.written out.new) (K.write_faults out.old)
        (K.write_faults out.new) result bytes.now }
{
    out.write_all(bytes)
}

/// Writes parts, one after another.
pub(crate) fn put_all<K: Sink>(out: &mut K, parts: &[&[u8]]) -> Result<(), Failed>
    ensures { AppendsOrFails (K.written out.old) (K.written out.new) (K.write_faults out.old)
        (K.write_faults out.new) result (flat_map (λ part. part.now) parts.now) }
{
    for part in parts {
        put(out, part)?;
    }
    Ok(())
}
