use super::*;
use pv_memory::MemDisk;
use std::alloc::{AllocError, Global};
use std::test::Fail;

/// These texts as words of a command line.
fn texts(alloc: Global, words: &[&str]) -> Result<Vec<String>, AllocError> {
    let mut texts = Vec::new(alloc);
    for word in words {
        texts.push(String::from_str(alloc, word)?)?;
    }
    Ok(texts)
}

/// The number with which a formatting of two disks ends, of which the calls of these numbers fail.
fn format_number(alloc: Global, words: &[&str], fails: &[u64]) -> Result<u8, AllocError> {
    let mut disks = Vec::new(alloc);
    disks.push(MemDisk::new(alloc, 64, &[])?)?;
    disks.push(MemDisk::new(alloc, 64, fails)?)?;
    let words = texts(alloc, words)?;
    Ok(format_all(&words, &mut disks).number())
}

#[test]
fn disks_are_formatted(rt: HostRuntime) -> Result<(), Fail> {
    let cases: [(&[&str], &[u64], u8); 7] = [
        (&["format", "d", "1"], &[], 0),
        (&["format", "d", "1"], &[0], 8),
        (&["format", "d", "1"], &[2], 8),
        (&["format", "d", "5"], &[], 2),
        (&["format", "d", "01"], &[], 2),
        (&["format", "d"], &[], 2),
        (&["forma", "d", "1"], &[], 2),
    ];
    for (words, fails, number) in cases {
        assert_eq!(rt;
            format_number(rt.alloc(), words, fails)?,
            number,
            "{words:?}"
        );
    }
    Ok(())
}

/// What these words ask for: the callers' port and that of editors, or why not.
fn ports_asked(alloc: Global, words: &str) -> Result<(u16, u16), OptionFault> {
    let mut texts = Vec::new(alloc);
    for word in words.split(' ') {
        let text = String::from_str(alloc, word).map_err(|_| OptionFault::Memory)?;
        texts.push(text).map_err(|_| OptionFault::Memory)?;
    }
    let options = serve_options(alloc, &texts)?;
    Ok((options.port, options.editor_port))
}

#[test]
fn words_of_a_server(rt: HostRuntime) {
    let bad = Err(OptionFault::Usage);
    let numbers = "serve d --centres 2 --ports 16 --editors 4 --calls 1000000";
    let cases: [(&str, Result<(u16, u16), OptionFault>); 10] = [
        (" --port 9000 --editor-port 9100", Ok((9000, 9100))),
        (" --editor-port=9100 --port=9000", Ok((9000, 9100))),
        (" --port 65534 --editor-port 65533", Ok((65534, 65533))),
        (" --port 65535 --editor-port 1", bad),
        (" --port 9000 --editor-port 9001", bad),
        (" --port 9000 --editor-port 9002", Ok((9000, 9002))),
        (" --port 09000 --editor-port 9100", bad),
        (" --port 9000 --port 9000 --editor-port 9100", bad),
        (" --editor-port 9100", bad),
        (" --port 9000 --editor-port 9100 x", bad),
    ];
    for (rest, wanted) in cases {
        let asked = match format!(in rt.alloc(); "{numbers}{rest}") {
            Ok(words) => ports_asked(rt.alloc(), &words),
            Err(_) => Err(OptionFault::Memory),
        };
        assert_eq!(rt; asked, wanted, "{rest}");
    }
}
