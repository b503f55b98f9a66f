use pv_keys::{Command, KeyReader};
use pv_page::PageNo;

/// The command of a page's number.
fn go(number: u32) -> Command {
    match PageNo::of_number(number) {
        Some(page) => Command::Go(page),
        None => Command::Slip,
    }
}

/// What is returned at the last of these bytes, if nothing is returned before.
fn only_answer(reader: &mut KeyReader, bytes: &[u8]) -> Option<Command> {
    let (last, before) = bytes.split_last()?;
    for byte in before {
        if reader.take(*byte).is_some() {
            return None;
        }
    }
    reader.take(*last)
}

#[test]
fn each_command_is_given_at_its_last_key(rt: HostRuntime) {
    let rows: [(&[u8], Command); 40] = [
        (b"0", Command::Route(0)),
        (b"5", Command::Route(5)),
        (b"9", Command::Route(9)),
        (b"#", Command::Next),
        (b"_", Command::Next),
        (b"*#", Command::Back),
        (b"*_", Command::Back),
        (b"*0#", go(0)),
        (b"*0_", go(0)),
        (b"*00", Command::Repeat),
        (b"*09", Command::Fresh),
        (b"*1#", go(1)),
        (b"*12#", go(12)),
        (b"*9#", go(9)),
        (b"*90#", Command::End),
        (b"*91#", go(91)),
        (b"*93#", go(93)),
        (b"*900#", go(900)),
        (b"*930#", Command::Mail),
        (b"*9300#", go(9300)),
        (b"*100000000#", go(100_000_000)),
        (b"*999999999#", go(999_999_999)),
        (b"**", Command::Cancel),
        (b"*0**", Command::Cancel),
        (b"*12**", Command::Cancel),
        (b"*90**", Command::Cancel),
        (b"*123456789**", Command::Cancel),
        (b"*01", Command::Slip),
        (b"*05", Command::Slip),
        (b"*08", Command::Slip),
        (b"*1234567890", Command::Slip),
        (b"*9999999999", Command::Slip),
        (b"*12*5", Command::Slip),
        (b"*12*#", Command::Slip),
        (b"*12*_", Command::Slip),
        (b"*0*0", Command::Slip),
        (b" 7", Command::Route(7)),
        (b"\x00*a1\xff2\x7f_", go(12)),
        (b"*\n9\r0 #", Command::End),
        (b"+*,*", Command::Cancel),
    ];
    for (bytes, command) in rows {
        let mut reader = KeyReader::new();
        assert_eq!(rt;
            only_answer(&mut reader, bytes),
            Some(command),
            "at {bytes:?}"
        );
        assert_eq!(rt; reader, KeyReader::new(), "after {bytes:?}");
    }
}

#[test]
fn every_byte_is_accepted_after_any_keys(rt: HostRuntime) {
    let before: [&[u8]; 9] = [
        b"",
        b"*",
        b"*0",
        b"*5",
        b"*93",
        b"*12345678",
        b"*123456789",
        b"*0*",
        b"*12*",
    ];
    for keys in before {
        let mut begun = KeyReader::new();
        for key in keys {
            assert_eq!(rt; begun.take(*key), None);
        }
        for byte in 0..=255 {
            let mut reader = begun;
            let answer = reader.take(byte);
            let is_key = byte.is_ascii_digit() || byte == b'*' || byte == b'#' || byte == b'_';
            if answer.is_some() {
                assert_eq!(rt; reader, KeyReader::new(), "{byte} after {keys:?}");
            }
            assert_eq!(rt;
                reader != begun || answer.is_some(),
                is_key,
                "{byte} after {keys:?}"
            );
        }
    }
}

#[test]
fn commands_do_not_depend_on_how_the_bytes_are_cut(rt: HostRuntime) {
    let bytes = b"*1234567890#**";
    let commands = [Command::Slip, Command::Next, Command::Cancel];
    for at in 0..=bytes.len() {
        let mut reader = KeyReader::new();
        let mut expected = commands.iter();
        for piece in [&bytes[..at], &bytes[at..]] {
            for byte in piece {
                if let Some(command) = reader.take(*byte) {
                    assert_eq!(rt; Some(&command), expected.next(), "cut at {at}");
                }
            }
        }
        assert_eq!(rt; expected.next(), None, "cut at {at}");
        assert_eq!(rt; reader, KeyReader::new(), "cut at {at}");
    }
}
