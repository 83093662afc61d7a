// What no clause says: that pieces come out whole and in their order, and with which error a failed read ends.
use super::*;
use std::test::Fail;

// A reader of six bytes in pieces of two that then ends, or fails as one that waited too long.
#[derive(Drop)]
struct Pieces {
    at: usize,
    fails: bool,
}

impl Read for Pieces {
    fn read(&mut self, buf: &mut [u8]) -> io::Result<usize> {
        let rest = b"port 7".get(self.at..).unwrap_or(&[]);
        if rest.is_empty() && self.fails {
            return Err(io::Error::from(io::ErrorKind::TimedOut));
        }
        let n = rest.len().min(2).min(buf.len());
        buf[..n].copy_from_slice(&rest[..n]);
        self.at = self.at.saturating_add(n);
        Ok(n)
    }
}

fn reader(fails: bool) -> Pieces {
    Pieces { at: 0, fails }
}

#[test]
fn pieces_are_kept_to_their_end_or_as_places_last(rt: HostRuntime) -> Result<(), Fail> {
    let mut kept = [b'.'; 8];
    assert_eq!(rt; gather(&mut reader(false), &mut kept)?, 6);
    assert_eq!(rt; kept, *b"port 7..");
    let mut few = [b'.'; 3];
    assert_eq!(rt; gather(&mut reader(true), &mut few)?, 3);
    assert_eq!(rt; few, *b"por");
    Ok(())
}

#[test]
fn a_failed_read_ends_with_its_own_error(rt: HostRuntime) {
    let mut kept = [b'.'; 8];
    let answer = gather(&mut reader(true), &mut kept);
    assert_eq!(rt; answer.map_err(|e| e.kind()), Err(io::ErrorKind::TimedOut));
}

#[test]
fn of_an_input_only_the_failure_is_told(rt: HostRuntime) {
    let mut kept = [b'.'; 8];
    assert_eq!(rt; gather_input(&mut reader(false), &mut kept), Ok(6));
    assert_eq!(rt; kept, *b"port 7..");
    assert_eq!(rt; gather_input(&mut reader(true), &mut kept), Err(ReadFailed));
}
