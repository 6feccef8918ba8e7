// How long a log is, which is known before anything of it is printed. Whether it is too long, window says.
ghost use Rattle.std.specs.Prelude.{◌≤◌, IfSome};

use answer::Reason;
use files::NamedFile;
use std::fs::File;

// How many bytes of a log are measured at a time.
const PIECE: usize = 65536;

// One read of a log that is only measured: what it read is dropped.
fn measure_some<R: Eprint>(rt: &R, file: &mut NamedFile<'_, File>) -> Option<usize>
    ensures { IfSome result (λ n. n ≤ 65536) }
{
    let mut buf = [0u8; PIECE];
    file.read(rt, &mut buf)
}

// How many bytes a log has, read until it ends or is known to be too long; nothing where a read failed.
pub(crate) fn measure<R: Eprint>(rt: &R, file: &mut NamedFile<'_, File>) -> Option<usize> {
    let mut len = 0;
    while window::log_answer(len).is_ok() {
        let more = measure_some(rt, file)?;
        if more == 0 {
            break;
        }
        len += more;
    }
    Some(len)
}

// Prints the answer to a log that is too long.
pub(crate) fn put_too_long<R: Print>(rt: &R, why: Reason) {
    let most = sealing::MAX_LOG;
    let _ = println!(rt; "refused {}: the log is over {most} bytes", u8::from(why));
}
