// What no clause says: which bytes are read, and which error is told.
use super::*;
use std::io::ErrorKind;
use std::test::Fail;

// Gives its bytes, two at a time, and ends or fails behind them.
#[derive(Clone, Copy)]
struct Halting<'a> {
    left: &'a [u8],
    failure: Option<ErrorKind>,
}

impl Read for Halting<'_> {
    fn read(&mut self, buf: &mut [u8]) -> io::Result<usize> {
        match self.failure {
            Some(kind) if self.left.is_empty() => Err(kind.into()),
            _ => {
                let most = buf.len().min(2);
                self.left.read(&mut buf[..most])
            }
        }
    }
}

fn five_bytes(failure: Option<ErrorKind>) -> Halting<'static> {
    Halting {
        left: b"kiosk",
        failure,
    }
}

#[test]
fn an_input_that_ends_is_read(rt: HostRuntime) -> Result<(), Fail> {
    let mut bytes = [0; 8];
    assert_eq!(rt; read_input(&mut five_bytes(None), &mut bytes)?, 5);
    assert_eq!(rt; bytes[..5], b"kiosk"[..]);
    let mut few = [0; 3];
    assert_eq!(rt;
        read_input(&mut five_bytes(None), &mut few)?,
        3,
        "a full buffer ends it"
    );
    assert_eq!(rt; few[..], b"kio"[..]);
    Ok(())
}

#[test]
fn the_error_of_the_read_that_failed_is_told(rt: HostRuntime) {
    let mut bytes = [0; 8];
    for kind in [ErrorKind::ConnectionReset, ErrorKind::IsADirectory] {
        match read_input(&mut five_bytes(Some(kind)), &mut bytes) {
            Ok(_) => assert!(rt; false, "no error"),
            Err(error) => assert_eq!(rt; error.kind(), kind),
        }
        assert_eq!(rt; bytes[..5], b"kiosk"[..], "what was read stands");
    }
}

#[test]
fn an_unreadable_input_is_unreadable(rt: HostRuntime) {
    let mut bytes = [0; 8];
    assert_eq!(rt;
        read_or_unreadable(&mut five_bytes(None), &mut bytes),
        Ok(5)
    );
    let failing = &mut five_bytes(Some(ErrorKind::ConnectionReset));
    assert_eq!(rt; read_or_unreadable(failing, &mut bytes), Err(Unreadable));
    let failing = &mut five_bytes(Some(ErrorKind::ConnectionReset));
    assert_eq!(rt;
        read_full(failing, &mut bytes),
        5,
        "a read that fails is the end"
    );
}
