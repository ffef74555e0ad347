//! The command `check`: validates a configuration and prints how many receivers, routes and
//! inhibition rules it has.
ghost use Rattle.std.specs.Prelude.{◌≡◌, IfOk, string_bytes};
ghost use Rattle.amreplay.specs.Ends.{EndsBy};
ghost use Rattle.amreplay.specs.Program.Checked.{counts_line, CheckLeaves};

use crate::fault::Fault;
use crate::lines::{CheckedWriter, flush, write_whole};
use crate::program::load::read_config;
use amr_config::Config;
use std::alloc::{AllocError, Global};
use std::io::Write;

/// Validates a configuration, and writes a line with the numbers of its receivers, routes and
/// inhibition rules. Writes nothing if the configuration is refused.
pub fn check_config<W: Write>(
    alloc: Global,
    config: &[u8],
    out: &mut CheckedWriter<W>,
) -> Result<(), Fault>
    ensures left { CheckLeaves (W.contents out.old.writer) (W.contents out.new.writer) config.now
        result }
    ensures ended { EndsBy result out.old.failed out.new.failed }
{
    let config = read_config(alloc, config)?;
    let text = counts_text(alloc, &config)?;
    write_whole(out, text.as_bytes())?;
    flush(out)?;
    Ok(())
}

/// Returns the line: how many receivers, routes (with the root) and inhibition rules there are.
fn counts_text(alloc: Global, config: &Config) -> Result<String, AllocError>
    ensures { IfOk result (λ text. string_bytes text ≡ counts_line config.now) }
{
    let receivers = config.receiver_count();
    let routes = config.route_count();
    let rules = config.rules().len();
    format!(in alloc; "{{\"receivers\":{receivers},\"routes\":{routes},\"rules\":{rules}}}\n")
}
