// An input that is read whole, into one buffer, and what is said of a read or a write that fails.
#![tactic(auto)]

ghost use Rattle.std.specs.Prelude.{◌≡◌, ◌≤◌, ◌<◌, length, take, drop, IsNone};
ghost use Rattle.std.specs.Io.KnownBytes.{Consumes, IsAtEnd};

use std::io::{Error, Read};

// How many bytes the buffer has, and the error of the read that failed, if one did.
#[derive(Clone, Copy)]
pub struct Filled {
    pub end: usize,
    pub error: Option<Error>,
}

// Fills the buffer from its byte `from` on: to its end, or to the end of the input. The bytes are those that the reader gave, also where
// a read fails after some of them.
pub fn fill<R: Read>(reader: &mut R, input: &mut [u8], from: usize) -> Filled
    requires { from ≤ length input.old }
    ensures in_bounds { result.end ≤ length input.new }
    ensures lower_bound { from ≤ result.end }
    ensures front { take from input.new ≡ take from input.old }
    ensures bytes { Consumes (R.remaining reader.old) (R.remaining reader.new) (drop from (take result.end input.new)) }
    ensures end { IsNone result.error → result.end < length input.new → IsAtEnd (R.remaining reader.new) }
{
    let mut have = from;
    // No `for`: a read says how many bytes came.
    while have < input.len() {
        match reader.read(&mut input[have..]) {
            Ok(0) => break,
            Ok(n) => have += n,
            Err(e) => {
                return Filled {
                    end: have,
                    error: Some(e),
                };
            }
        }
    }
    Filled {
        end: have,
        error: None,
    }
}

// Writes a line to standard error: what failed, a colon and the system's text for the error, without its number. A failure of this write
// is not said anywhere.
pub fn say_failure(rt: &(impl Eprint + AllocGlobal), what: &str, error: Error) {
    let Ok(text) = format!(in rt.alloc(); "{error}") else {
        let _ = eprintln!(rt; "{what}: {error}");
        return;
    };
    let _ = match text.split_once(" (os error ") {
        Some((reason, _)) => eprintln!(rt; "{what}: {reason}"),
        None => eprintln!(rt; "{what}: {text}"),
    };
}

#[cfg(test)]
mod tests {
    use super::*;
    use std::io;
    use std::io::ErrorKind;

    // Gives a byte a read, 3, 2 and 1, and then fails.
    #[derive(Drop)]
    struct Broken {
        left: u8,
    }

    impl Read for Broken {
        fn read(&mut self, buf: &mut [u8]) -> io::Result<usize> {
            if self.left == 0 {
                return Err(Error::from(ErrorKind::ConnectionReset));
            }
            if buf.is_empty() {
                return Ok(0);
            }
            buf[0] = self.left;
            self.left -= 1;
            Ok(1)
        }
    }

    #[test]
    fn a_failure_keeps_what_came_before_it(rt: HostRuntime) {
        let mut input = [9u8; 8];
        let filled = fill(&mut Broken { left: 3 }, &mut input, 2);
        assert_eq!(rt; filled.end, 5);
        assert!(rt; filled.error.is_some());
        assert_eq!(rt; input, [9, 9, 3, 2, 1, 9, 9, 9]);
    }

    #[test]
    fn a_full_buffer_leaves_the_rest(rt: HostRuntime) {
        let mut input = [9u8; 4];
        let mut bytes = &b"abcde"[..];
        let filled = fill(&mut bytes, &mut input, 1);
        assert_eq!(rt; filled.end, 4);
        assert!(rt; filled.error.is_none());
        assert_eq!(rt; input, *b"\tabc");
        assert_eq!(rt; bytes, b"de".as_slice());
    }
}
