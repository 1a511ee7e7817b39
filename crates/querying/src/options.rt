// The options that the arguments say; a line says which of them is bad, and why.
ghost use Rattle.std.specs.Prelude.{◌≡◌, IfOk};
ghost use Rattle.arguments.specs.Options.{said_of};
ghost use Rattle.querying.specs.Reading.{read_of};

use arguments::options::{NoOption, Options};
use std::io;

fn print_no_option(rt: &impl Print, arg: &[u8], why: NoOption) -> io::Result<()> {
    print!(rt; "option: ")?;
    print::text(rt, arg)?;
    println!(rt; "{why}")
}

// The options with the one that argument i is; says why that is none.
pub fn with_option(rt: &impl Print, o: Options, arg: &[u8], i: usize) -> io::Result<Option<Options>>
    ensures { IfOk result (λ r. r ≡ read_of o (said_of arg.now) i) }
{
    match arguments::options::with_said(o, arguments::options::said_of(arg), i) {
        Ok(more) => Ok(Some(more)),
        Err(why) => {
            print_no_option(rt, arg, why)?;
            Ok(None)
        }
    }
}
