//! Texts that are printed.
ghost use Rattle.std.specs.Prelude.{◌≡◌};
ghost use Rattle.tally_print.specs.Output.{IsWritable, Prints, failed_calls};

use tally_print::{Output, PrintFault};

/// Prints a text. `Write` is a failure of the output in this call; a first part of the text was written then.
pub fn print_text<O: Output>(text: &[u8], out: &mut O) -> Result<(), PrintFault>
    requires writable { IsWritable (O.state out.old) }
    ensures writes { Prints (O.state out.old) (O.state out.new) result (failed_calls result) text.now }
{
    let mut rest = text;
    while !rest.is_empty() {
        match out.put(rest) {
            Ok(count) => rest = &rest[count..],
            Err(_) => return Err(PrintFault::Write),
        }
    }
    Ok(())
}
