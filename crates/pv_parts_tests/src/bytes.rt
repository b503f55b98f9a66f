//! Bytes of which one is changed.

/// Puts another byte at a place. A place past the end is left alone.
pub fn change(bytes: &mut [u8], at: usize, byte: u8) {
    if let Some(changed) = bytes.get_mut(at) {
        *changed = byte;
    }
}
