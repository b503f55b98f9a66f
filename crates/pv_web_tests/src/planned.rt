/// What comes next from a browser of a test.
#[derive(Clone, Copy)]
pub enum Planned {
    /// A message of these keys.
    Keys(&'static [u8]),
    /// A ping.
    Ping,
    /// A fault.
    Fault,
}
