//! The bytes of the screens that a caller is sent.

use pv_frame::{CheckedFrame, Frame};
use pv_page::FrameName;
use pv_screen::{BUFFER, Grid, ROWS, Screen, compose};
use pv_session::Message;
use std::alloc::Global;
use std::test::Fail;

/// A screen that a caller is sent.
#[derive(Clone, Copy)]
pub enum Sent {
    /// A message on a blank screen.
    Alone(Message),
    /// A message in row 24.
    Row(Message),
}

/// What a caller is sent who keys an account and a password that are not known.
pub const NOT_KNOWN: [Sent; 3] = [
    Sent::Alone(Message::KeyAccount),
    Sent::Row(Message::KeyPassword),
    Sent::Row(Message::NotKnown),
];

/// The screen.
fn screen_of(sent: Sent) -> Screen {
    match sent {
        Sent::Alone(message) => {
            let mut grid = Grid::blank();
            grid.set_row(ROWS as u8, &message.row());
            Screen::Whole(grid)
        }
        Sent::Row(message) => Screen::Row(message.row()),
    }
}

/// The bytes of these screens, one after another.
pub fn bytes_of(alloc: Global, sent: &[Sent]) -> Result<Vec<u8>, Fail> {
    let mut all = Vec::new(alloc);
    let mut bytes = [0; BUFFER];
    for screen in sent {
        let count = screen_of(*screen).bytes(&mut bytes);
        all.extend_from_slice(&bytes[..count])?;
    }
    Ok(all)
}

/// The bytes of the blank frame of this name.
pub fn blank_frame(alloc: Global, name: &[u8]) -> Result<Vec<u8>, Fail> {
    let name = FrameName::of_text(name).ok_or("a name")?;
    let frame = CheckedFrame::of(Frame::blank())?;
    let mut bytes = [0; BUFFER];
    let count = Screen::Whole(compose(frame.frame(), name)).bytes(&mut bytes);
    Ok(Vec::from_slice(alloc, &bytes[..count])?)
}
