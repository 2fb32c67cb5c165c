// Bytes read from a file or a stream.
ghost use Rattle.std.specs.Prelude.{◌≤◌, length, IfOk};

use std::io;
use std::io::Read;

// Reads until the buffer is full or there is no more; how many bytes that were. A read that a signal interrupts is an error here, where std's
// `read_exact` and `read_to_end` try again.
pub fn read_full(from: &mut impl Read, buf: &mut [u8]) -> io::Result<usize>
    ensures { IfOk result (λ n. n ≤ length buf.new) }
{
    let mut done = 0;
    while done < buf.len() {
        let n = from.read(&mut buf[done..])?;
        if n == 0 {
            break;
        }
        done += n;
    }
    Ok(done)
}
