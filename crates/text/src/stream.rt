// Text that leaves the program, over the C library's write alone. No clause can say what that writes.
use std::fmt;

// A stream by its number: 1 is standard output, 2 standard error. A piece that cannot be written is lost, and those after it are tried all the
// same: no failure ends a text halfway.
#[derive(Clone, Copy)]
pub struct Stream(pub i32);

impl fmt::Write for Stream {
    fn write_str(&mut self, text: &str) -> fmt::Result {
        io::write_all(self.0, text.as_bytes());
        Ok(())
    }
}
